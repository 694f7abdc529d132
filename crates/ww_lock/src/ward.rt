//! What a board keeps.
ghost use Rattle.ww_lock.specs.Facts.{Facts, AreLawful};

/// What a board knows of its values and its pivot, as a type that has no values of its own.
///
/// A ward with no fence words shows 0 for each. One with no tasks has `()` for them, with which its pivots are always
/// busy.
pub trait Ward {
    /// What all values have to fit, and what callers take in turns: a device.
    type Pivot: Drop;

    /// What is locked one by one: the reservation of a buffer.
    type Value: Drop;

    /// What the pivot may wait for while nobody is inside: work that one caller took out with it.
    type Task: Drop;

    // Which pivots are good, what fits them and what comes of them, what they show and what they wait for.
    ghost facts: { Facts Self.Pivot Self.Value Self.Task };

    // What comes of a pivot is a reflexive and transitive relation, along which no fence word goes back.
    ghost lawful: { AreLawful facts };
}
