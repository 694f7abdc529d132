//! The page of a picture: one SVG, with no script, font, image or style from elsewhere.

ghost use Rattle.std.specs.Prelude.{◌≡◌, ◌<◌, ◌^◌, ◌++◌, IfOk, OnOk, length};
ghost use Rattle.drm_draw.specs.Page.{IsPage, columns_of, columns_of_text, content_text, frame_of, greater_of, greatest_of, heading_text, legend_row, lower_text, moment_rows as moment_rows_of, page_of, pattern_text, patterns_text, rows_above as rows_above_of, rows_of_keys, rule_text, size_text, slant_text, stripes_text, top_text, upper_text, view_text};
ghost use Rattle.drm_draw.specs.Heading.{heading_of};
ghost use Rattle.drm_draw.specs.Legend.{legend_of};

use crate::credits::put_credits;
use crate::heading::heading;
use crate::keys::put_keys;
use crate::legend::{Key, legend};
use drm_core::Event;
use drm_picture::{Picture, Step, moment};
use drm_svg::{Layout, lay_out, put_entity_class, put_inside, put_number, put_text, put_wide};
use drm_types::{EntityId, Moment};
use std::alloc::{AllocError, Global};

/// What stands before the size. The character reference is a digit of the address of the namespace.
const HEAD: &str =
    "<svg xmlns='http://www.w&#51;.org/2000/svg' font-family='monospace' font-size='6' width='";

/// What stands between the size and how much is shown: four columns are left of the commands.
const VIEW: &str = "pc' viewBox='-40 -";

/// What stands behind it: the colours are those of Okabe and Ito, which people with colour blindness tell apart.
const STYLE: &str =
    "0'><style>svg{color:#000}.page{fill:#fff;stroke:none}text{fill:currentColor}g text{fill:#000;font-size:5px}g rect{stroke:currentColor;stroke-width:.5}.e0{fill:#e69f00}.e1{fill:#56b4e9}.e2{fill:#009e73}.e3{fill:#f0e442}.e4{fill:#0072b2}.e5{fill:#d55e00}.e6{fill:#cc79a7}.e4+text{fill:#fff}.open{stroke-dasharray:1 1}.cancelled{stroke-dasharray:3 1.5;stroke-width:1}.stopped{stroke-width:1.5}.skipped{mask:url(#hatched)}.lock{fill:#999}.waiting rect{fill-opacity:.4}.waiting text{fill:currentColor}.halt rect{stroke-width:.3}.halt .guilty{fill:#f0e442}.halt .stopped{fill:#d55e00}.credits text{fill:currentColor}.credits path{stroke-width:.7}path,circle{fill:none;stroke:currentColor}path.guilty{fill:#f0e442}.refused{stroke:#d55e00}.given{stroke:#0072b2}.wait path{stroke-width:.5;opacity:.6}.wait circle{fill:currentColor}.legend text{fill:currentColor;font-size:6px}@media(prefers-color-scheme:dark){svg{color:#eee}.page{fill:#111}.given{stroke:#56b4e9}}</style><pattern id='stripes' width='3' height='3' patternUnits='userSpaceOnUse' patternTransform='rotate(45)'><path d='M1 0v3' style='stroke:#fff;stroke-width:2'/></pattern><mask id='hatched' maskUnits='userSpaceOnUse' x='-9' y='-9' width='100%' height='100%'><path d='M-9 -9h999999v999999h-999999z' style='fill:#999;stroke:none'/><path d='M-9 -9h999999v999999h-999999z' style='fill:url(#stripes);stroke:none'/></mask><path class='page' d='M-999 -999h999999v999999h-999999z'/>\n";

/// The title.
const HEADING: &str = "<text class='heading' x='-38' y='-";

/// The pattern of an entity.
const PATTERN: &str = "<pattern id='";

/// The slant of its stripes.
const PATTERN_TURN: &str =
    "' width='3' height='3' patternUnits='userSpaceOnUse' patternTransform='rotate(";

/// The colour between them.
const PATTERN_FILL: &str = ")'><path class='";

/// The stripes, and what has the pattern.
const PATTERN_CLASS: &str =
    "' d='M-1 -1h5v5h-5z' style='stroke:none'/><path d='M1 0v3' style='stroke:#fff;stroke-width:.5'/></pattern><style>.";

/// The rule.
const PATTERN_RULE: &str = "{fill:url(#";

/// The end of a pattern.
const PATTERN_END: &str = ")}</style>\n";

/// The end of a page.
const PAGE_END: &str = "</svg>\n";

/// What of a page is where, in columns and rows.
#[derive(Clone, Copy)]
struct Frame {
    /// How wide the page is.
    columns: u128,
    /// How high it is.
    rows: u128,
    /// The rows above the lanes.
    above: u128,
    /// The first row of the legend, below the first of the lanes.
    legend: u128,
    /// How many keys of the legend stand in a row.
    wide: u128,
}

// How many columns a text of so many characters takes.
fn text_columns(text: &[u8]) -> u128
    ensures value { result ≡ columns_of_text text.now }
    ensures small { result < 2 ^ 65 }
{
    (4 * text.len() as u128 + 11) / 10
}

// How many columns the page of a picture with this title has.
fn columns(picture: &Picture, heading: &[u8]) -> u128
    requires { heading.now ≡ heading_of picture.now }
    ensures value { result ≡ columns_of picture.now }
    ensures small { result < 2 ^ 66 }
{
    (picture.width as u128 + 5).max(text_columns(heading))
}

// The greater of two moments, or the one that there is.
fn greater(a: Option<Moment>, b: Option<Moment>) -> Option<Moment>
    ensures { result ≡ greater_of a b }
{
    match (a, b) {
        (Some(a), Some(b)) => Some(a.max(b)),
        (None, _) => b,
        _ => a,
    }
}

// The greatest moment that these commands tell, if one does.
fn greatest(commands: &[Event<EntityId>]) -> Option<Moment>
    ensures { result ≡ greatest_of commands.now }
{
    let mut most = None;
    for command in commands {
        most = greater(most, moment(command));
    }
    most
}

// How many rows a moment takes that stands upright.
fn moment_rows(moment: Option<Moment>) -> u128
    ensures value { result ≡ moment_rows_of moment }
    ensures small { result < 2 ^ 65 }
{
    match moment {
        Some(now) => text_columns(itoa::Buffer::new().format(now).as_bytes()),
        None => 0,
    }
}

// How many rows are above the lanes: the title, the words of commands and their moments.
fn rows_above(picture: &Picture) -> u128
    ensures value { result ≡ rows_above_of picture.now }
    ensures small { result < 2 ^ 66 }
{
    let words = if picture.columns.is_empty() { 0 } else { 3 };
    1 + words + moment_rows(greatest(&picture.columns))
}

// How many rows so many keys take.
fn key_rows(wide: u128, keys: usize) -> u128
    requires wide { 0 < wide }
    requires small { wide < 2 ^ 67 }
    ensures value { result ≡ rows_of_keys wide keys }
    ensures small { result < 2 ^ 68 }
{
    (keys as u128 + (wide - 1)) / wide
}

// The first row of the legend, below the fences.
fn first_key_row(layout: &Layout) -> u128
    ensures value { result ≡ legend_row layout.now }
    ensures small { result < 2 ^ 66 }
{
    layout.header as u128 + layout.fences.as_slice().len() as u128 + 2
}

// Puts the size, sixteen pixels for each column and row where nothing scales it.
#[tactic(auto, unfolding(crate::specs::Page::size_text))]
fn put_size(out: &mut Vec<u8>, columns: u128, rows: u128) -> Result<(), AllocError>
    ensures { OnOk result (out.new.items ≡ out.old.items ++ size_text columns rows) }
{
    put_text(out, HEAD)?;
    put_wide(out, columns)?;
    put_text(out, "pc' height='")?;
    put_wide(out, rows)
}

// Puts how much is shown, in pixels, with so many rows above the lanes, and the colours.
#[tactic(auto, unfolding(crate::specs::Page::view_text))]
fn put_view(out: &mut Vec<u8>, columns: u128, rows: u128, above: u128) -> Result<(), AllocError>
    ensures { OnOk result (out.new.items ≡ out.old.items ++ view_text columns rows above) }
{
    put_text(out, VIEW)?;
    put_wide(out, above)?;
    put_text(out, "0 ")?;
    put_wide(out, columns)?;
    put_text(out, "0 ")?;
    put_wide(out, rows)?;
    put_text(out, STYLE)
}

// Puts the title into the first row.
#[tactic(auto, unfolding(crate::specs::Page::heading_text))]
fn put_heading(out: &mut Vec<u8>, above: u128, heading: &[u8]) -> Result<(), AllocError>
    ensures { OnOk result (out.new.items ≡ out.old.items ++ heading_text above heading.now) }
{
    put_text(out, HEADING)?;
    put_wide(out, above.saturating_sub(1))?;
    put_text(out, "3'>")?;
    out.extend_from_slice(heading)?;
    put_text(out, "</text>\n")
}

// Puts the slant of the stripes of an entity.
#[tactic(auto, unfolding(crate::specs::Page::slant_text))]
fn put_slant(out: &mut Vec<u8>, entity: EntityId) -> Result<(), AllocError>
    ensures { OnOk result (out.new.items ≡ out.old.items ++ slant_text entity) }
{
    put_text(out, PATTERN)?;
    put_entity_class(out, entity)?;
    put_text(out, PATTERN_TURN)?;
    put_number(out, 20 * u64::from(entity / 7))
}

// Puts the stripes of an entity.
#[tactic(auto, unfolding(crate::specs::Page::stripes_text))]
fn put_stripes(out: &mut Vec<u8>, entity: EntityId) -> Result<(), AllocError>
    ensures { OnOk result (out.new.items ≡ out.old.items ++ stripes_text entity) }
{
    put_slant(out, entity)?;
    put_text(out, PATTERN_FILL)?;
    put_entity_class(out, entity % 7)
}

// Puts the rule that an entity has its pattern.
#[tactic(auto, unfolding(crate::specs::Page::rule_text))]
fn put_rule(out: &mut Vec<u8>, entity: EntityId) -> Result<(), AllocError>
    ensures { OnOk result (out.new.items ≡ out.old.items ++ rule_text entity) }
{
    put_text(out, PATTERN_CLASS)?;
    put_entity_class(out, entity)?;
    put_text(out, PATTERN_RULE)?;
    put_entity_class(out, entity)?;
    put_text(out, PATTERN_END)
}

// Puts the stripes of an entity, if it has some.
fn put_pattern(out: &mut Vec<u8>, entity: EntityId) -> Result<(), AllocError>
    ensures { OnOk result (out.new.items ≡ out.old.items ++ pattern_text entity) }
{
    if entity < 7 {
        return Ok(());
    }
    put_stripes(out, entity)?;
    put_rule(out, entity)
}

// Puts the stripes of the entities below this number.
fn put_patterns(out: &mut Vec<u8>, entities: u32) -> Result<(), AllocError>
    ensures { OnOk result (out.new.items ≡ out.old.items ++ patterns_text entities) }
{
    for entity in 0..entities {
        put_pattern(out, entity)?;
    }
    Ok(())
}

// Puts the page of a picture above what is in it.
#[tactic(auto, unfolding(crate::specs::Page::top_text))]
fn put_top(
    out: &mut Vec<u8>,
    picture: &Picture,
    heading: &[u8],
    columns: u128,
    rows: u128,
    above: u128,
) -> Result<(), AllocError>
    requires { heading.now ≡ heading_of picture.now }
    ensures { OnOk result (out.new.items ≡ out.old.items ++ top_text picture.now columns rows above) }
{
    put_size(out, columns, rows)?;
    put_view(out, columns, rows, above)?;
    put_heading(out, above, heading)?;
    put_patterns(out, picture.shape.entities)
}

// What of a page with this title and so many keys is where.
fn measure(picture: &Picture, layout: &Layout, heading: &[u8], keys: usize) -> Frame
    requires heading { heading.now ≡ heading_of picture.now }
    requires keys { keys ≡ length (legend_of picture.now) }
    ensures value { result ≡ frame_of picture.now layout.now }
    ensures wide { (0 < result.wide) × (result.wide < 2 ^ 67) }
    ensures legend { result.legend < 2 ^ 67 }
{
    let columns = columns(picture, heading);
    let wide = (columns / 11).max(1);
    let legend = first_key_row(layout);
    let above = rows_above(picture);
    Frame {
        columns,
        rows: above + (legend + key_rows(wide, keys)),
        above,
        legend,
        wide,
    }
}

// Puts what is in a picture, and the credits of its rings.
#[tactic(auto, unfolding(crate::specs::Page::content_text))]
fn put_content(
    alloc: Global,
    out: &mut Vec<u8>,
    limits: &[u16],
    before: &[Step],
    part: &[Step],
    picture: &Picture,
    layout: &Layout,
) -> Result<(), AllocError>
    ensures { OnOk result (out.new.items ≡ out.old.items ++ content_text limits.now before.now part.now picture.now layout.now) }
{
    put_inside(alloc, out, picture, layout)?;
    put_credits(out, limits, before, part, picture, layout)
}

// Puts the page of a picture above its legend.
#[tactic(auto, unfolding(crate::specs::Page::upper_text))]
fn put_upper(
    alloc: Global,
    out: &mut Vec<u8>,
    frame: Frame,
    heading: &[u8],
    limits: &[u16],
    before: &[Step],
    part: &[Step],
    picture: &Picture,
    layout: &Layout,
) -> Result<(), AllocError>
    requires { heading.now ≡ heading_of picture.now }
    ensures { OnOk result (out.new.items ≡ out.old.items ++ upper_text frame limits.now before.now part.now picture.now layout.now) }
{
    put_top(
        out,
        picture,
        heading,
        frame.columns,
        frame.rows,
        frame.above,
    )?;
    put_content(alloc, out, limits, before, part, picture, layout)
}

// Puts the legend of a picture, and the end of the page.
#[tactic(auto, unfolding(crate::specs::Page::lower_text))]
fn put_lower(
    out: &mut Vec<u8>,
    frame: Frame,
    legend: &[Key],
    picture: &Picture,
) -> Result<(), AllocError>
    requires legend { legend.now ≡ legend_of picture.now }
    requires wide { (0 < frame.wide) × (frame.wide < 2 ^ 67) }
    requires top { frame.legend < 2 ^ 67 }
    ensures { OnOk result (out.new.items ≡ out.old.items ++ lower_text frame picture.now) }
{
    put_keys(out, frame.wide, frame.legend, legend)?;
    put_text(out, PAGE_END)
}

// Puts the page of a picture that is laid out.
fn put_page(
    alloc: Global,
    out: &mut Vec<u8>,
    limits: &[u16],
    before: &[Step],
    part: &[Step],
    picture: &Picture,
    layout: &Layout,
) -> Result<(), AllocError>
    ensures { OnOk result (out.new.items ≡ out.old.items ++ page_of limits.now before.now part.now picture.now layout.now) }
{
    let heading = heading(alloc, picture)?;
    let legend = legend(alloc, picture)?;
    let frame = measure(picture, layout, &heading, legend.len());
    put_upper(
        alloc, out, frame, &heading, limits, before, part, picture, layout,
    )?;
    put_lower(out, frame, &legend, picture)
}

/// Returns the text of a picture, on rings of these limits, of a part of the commands behind those before it.
pub(crate) fn page(
    alloc: Global,
    limits: &[u16],
    before: &[Step],
    part: &[Step],
    picture: &Picture,
) -> Result<Vec<u8>, AllocError>
    ensures { IfOk result (λ text. IsPage limits.now before.now part.now picture.now text.items) }
{
    let layout = lay_out(alloc, picture)?;
    let mut out = Vec::new(alloc);
    put_page(alloc, &mut out, limits, before, part, picture, &layout)?;
    Ok(out)
}
