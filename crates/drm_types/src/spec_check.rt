ghost use Rattle.std.specs.Prelude.{◌≡◌, ◌≤◌, ◌<◌, ℕ, List, length, Option, Some, None, option_map, position, not, MatchResult, nat_lt, IfSome};
ghost use Rattle.std.specs.Option.{ForSome};
ghost use Rattle.std.specs.List.{list_all};
ghost use Rattle.drm_types.specs.declared.spec.BadSpec.{BadSpec};
ghost use Rattle.drm_types.specs.Limits.{whole as whole_fault, each as each_fault, is_between as is_between_both, are_distinct as all_distinct, are_rings as are_rings_of, spec_fault};

use crate::ids::RingId;
use crate::sequence::Sequence;
use crate::spec::{BadSpec, DeviceSpec, EntitySpec, RingSpec};

impl DeviceSpec {
    /// Checks that the description is within its limits. If it is not, it returns the first part that is not, in the
    /// order of the parts.
    pub fn check(&self) -> Result<(), BadSpec>
        ensures { MatchResult result (λ _. spec_fault self.now ≡ None) (λ bad. spec_fault self.now ≡ Some bad) }
    {
        self.check_buffer_count()?;
        self.check_buffer_sizes()?;
        self.check_ring_count()?;
        self.check_credit_limits()?;
        self.check_timeouts()?;
        self.check_hang_limits()?;
        self.check_entity_count()?;
        self.check_entity_rings()?;
        self.check_job_count()
    }

    fn check_buffer_count(&self) -> Result<(), BadSpec>
        ensures { let fault = whole_fault 0 (is_between_both 1 64 (length self.now.buffers)) in MatchResult result (λ _. fault ≡ None) (λ bad. fault ≡ Some bad) }
    {
        whole(0, is_between(1, 64, self.buffers.len()))
    }

    fn check_buffer_sizes(&self) -> Result<(), BadSpec>
        requires { length self.now.buffers ≤ 64 }
        ensures { let fault = each_fault 1 (λ bytes. is_between_both 1 4096 (length bytes)) self.now.buffers in MatchResult result (λ _. fault ≡ None) (λ bad. fault ≡ Some bad) }
    {
        each(1, bad_size(self.buffers.as_slice()))
    }

    fn check_ring_count(&self) -> Result<(), BadSpec>
        ensures { let fault = whole_fault 2 (is_between_both 1 8 (length self.now.rings)) in MatchResult result (λ _. fault ≡ None) (λ bad. fault ≡ Some bad) }
    {
        whole(2, is_between(1, 8, self.rings.len()))
    }

    fn check_credit_limits(&self) -> Result<(), BadSpec>
        requires { length self.now.rings ≤ 8 }
        ensures { let fault = each_fault 3 (λ ring. is_between_both 1 65535 ring.credit_limit) self.now.rings in MatchResult result (λ _. fault ≡ None) (λ bad. fault ≡ Some bad) }
    {
        each(3, bad_credit_limit(self.rings.as_slice()))
    }

    fn check_timeouts(&self) -> Result<(), BadSpec>
        requires { length self.now.rings ≤ 8 }
        ensures { let fault = each_fault 4 (λ ring. is_between_both 1 4294967295 ring.timeout) self.now.rings in MatchResult result (λ _. fault ≡ None) (λ bad. fault ≡ Some bad) }
    {
        each(4, bad_timeout(self.rings.as_slice()))
    }

    fn check_hang_limits(&self) -> Result<(), BadSpec>
        requires { length self.now.rings ≤ 8 }
        ensures { let fault = each_fault 5 (λ ring. is_between_both 0 1000 ring.hang_limit) self.now.rings in MatchResult result (λ _. fault ≡ None) (λ bad. fault ≡ Some bad) }
    {
        each(5, bad_hang_limit(self.rings.as_slice()))
    }

    fn check_entity_count(&self) -> Result<(), BadSpec>
        ensures { let fault = whole_fault 6 (is_between_both 1 64 (length self.now.entities)) in MatchResult result (λ _. fault ≡ None) (λ bad. fault ≡ Some bad) }
    {
        whole(6, is_between(1, 64, self.entities.len()))
    }

    fn check_entity_rings(&self) -> Result<(), BadSpec>
        requires { length self.now.entities ≤ 64 }
        ensures { let fault = each_fault 7 (λ entity. are_rings_of (length self.now.rings) entity.rings) self.now.entities in MatchResult result (λ _. fault ≡ None) (λ bad. fault ≡ Some bad) }
    {
        each(7, bad_rings(self.entities.as_slice(), self.rings.len()))
    }

    fn check_job_count(&self) -> Result<(), BadSpec>
        ensures { let fault = whole_fault 8 (is_between_both 1 65535 self.now.max_jobs) in MatchResult result (λ _. fault ≡ None) (λ bad. fault ≡ Some bad) }
    {
        whole(8, is_between(1, 65535, self.max_jobs as usize))
    }
}

fn is_between(least: usize, most: usize, n: usize) -> bool
    ensures { result ≡ is_between_both least most n }
{
    least <= n && n <= most
}

// A part as a whole.
fn whole(part: u32, fits: bool) -> Result<(), BadSpec>
    ensures { MatchResult result (λ _. whole_fault part fits ≡ None) (λ bad. whole_fault part fits ≡ Some bad) }
{
    if fits {
        Ok(())
    } else {
        Err(BadSpec { part, index: 0 })
    }
}

// A part by its elements, where this is the place of the first bad one.
fn each(part: u32, bad: Option<usize>) -> Result<(), BadSpec>
    requires { ForSome bad (λ i. i < 65) }
    ensures { let fault : Option BadSpec = option_map (λ i. record { part = part; index = i }) bad in MatchResult result (λ _. fault ≡ None) (λ bad. fault ≡ Some bad) }
{
    match bad {
        None => Ok(()),
        Some(index) => Err(BadSpec {
            part,
            index: index as u32,
        }),
    }
}

// The place of the first bad one of a part.
fn bad_size(buffers: &[Sequence<u8>]) -> Option<usize>
    ensures place { result ≡ position (λ bytes. not (is_between_both 1 4096 (length bytes))) buffers.now }
    ensures within { IfSome result (λ i. i < length buffers.now) }
{
    buffers
        .iter()
        .position(|bytes| !is_between(1, 4096, bytes.len()))
}

fn bad_credit_limit(rings: &[RingSpec]) -> Option<usize>
    ensures place { result ≡ position (λ ring. not (is_between_both 1 65535 ring.credit_limit)) rings.now }
    ensures within { IfSome result (λ i. i < length rings.now) }
{
    rings
        .iter()
        .position(|ring| !is_between(1, 65535, ring.credit_limit as usize))
}

fn bad_timeout(rings: &[RingSpec]) -> Option<usize>
    ensures place { result ≡ position (λ ring. not (is_between_both 1 4294967295 ring.timeout)) rings.now }
    ensures within { IfSome result (λ i. i < length rings.now) }
{
    rings
        .iter()
        .position(|ring| !is_between(1, 4294967295, ring.timeout as usize))
}

fn bad_hang_limit(rings: &[RingSpec]) -> Option<usize>
    ensures place { result ≡ position (λ ring. not (is_between_both 0 1000 ring.hang_limit)) rings.now }
    ensures within { IfSome result (λ i. i < length rings.now) }
{
    rings
        .iter()
        .position(|ring| !is_between(0, 1000, ring.hang_limit as usize))
}

// The place of the first entity whose list of rings is none.
fn bad_rings(entities: &[EntitySpec], rings: usize) -> Option<usize>
    ensures place { result ≡ position (λ entity. not (are_rings_of rings entity.rings)) entities.now }
    ensures within { IfSome result (λ i. i < length entities.now) }
{
    entities
        .iter()
        .position(|entity| !are_rings(entity.rings.as_slice(), rings))
}

// Whether the list of an entity's rings is one for so many rings.
fn are_rings(list: &[RingId], rings: usize) -> bool
    ensures { result ≡ are_rings_of rings list.now }
{
    is_between(1, 8, list.len()) && are_there(list, rings) && are_distinct(list)
}

// Whether each of these rings is there.
fn are_there(list: &[RingId], rings: usize) -> bool
    ensures { result ≡ list_all (λ ring. nat_lt ring rings) list.now }
{
    list.iter().all(|ring| (*ring as usize) < rings)
}

// Whether no ring stands twice.
fn are_distinct(list: &[RingId]) -> bool
    ensures { result ≡ all_distinct list.now }
{
    for (i, ring) in list.iter().enumerate() {
        if list[i + 1..].contains(ring) {
            return false;
        }
    }
    true
}
