//! A picture as SVG.

ghost use Rattle.std.specs.Prelude.{◌≡◌, ◌++◌, IfOk, OnOk, codes, string_bytes};
ghost use Rattle.run_drawings.specs.Elements.{lines_text, opening_text};

use crate::arrows::add_arrows;
use crate::elements::Element;
use crate::layout::{Layout, Point};
use crate::lives::add_lives;
use crate::notes::add_notes;
use crate::picture::Picture;
use crate::waits::add_waits;
use std::alloc::{AllocError, Global};
use std::fmt;

/// How elements look, by their classes.
const STYLE: &str = "<style>
text{font:12px monospace;fill:#222;paint-order:stroke;stroke:#fff;stroke-width:3px;stroke-linejoin:round}
.rank{font-weight:bold}.answer{fill:#15803d}.datagram{font-size:11px;fill:#1d4ed8}.refusal{fill:#b91c1c}
.printed{font-weight:bold}.failure{font-weight:bold;fill:#b91c1c}
path{fill:none;stroke:#222}
.life{stroke:#94a3b8;stroke-width:2}.over{stroke:#cbd5e1;stroke-dasharray:2 4}
.blocked{stroke:#fbbf24;stroke-width:10;stroke-opacity:.55}.stuck{stroke:#ef4444;stroke-width:10;stroke-opacity:.45}
.event{stroke-width:3}.fault{stroke:#b91c1c;stroke-width:5}.end{stroke-width:8}.break{stroke-width:2}
.taken{stroke:#1d4ed8;marker-end:url(#taken)}.refused{stroke:#b91c1c;marker-end:url(#refused)}
.lost{stroke:#b91c1c;stroke-dasharray:5 3;marker-end:url(#lost)}
.awaits,.turn{stroke:#b91c1c;stroke-width:1.5;stroke-dasharray:9 4}.awaits{marker-end:url(#awaits)}
marker path{stroke-width:1.5}
</style>
<defs>
<marker id=\"taken\" markerWidth=\"10\" markerHeight=\"8\" refX=\"10\" refY=\"4\" orient=\"auto\">
<path d=\"M0,0 L10,4 L0,8\" style=\"fill:#1d4ed8;stroke:none\"/></marker>
<marker id=\"refused\" markerWidth=\"10\" markerHeight=\"8\" refX=\"10\" refY=\"4\" orient=\"auto\">
<path d=\"M0,0 L10,4 L0,8\" style=\"fill:#b91c1c;stroke:none\"/></marker>
<marker id=\"lost\" markerWidth=\"12\" markerHeight=\"12\" refX=\"6\" refY=\"6\">
<path d=\"M1,1 L11,11 M1,11 L11,1\" style=\"stroke:#b91c1c\"/></marker>
<marker id=\"awaits\" markerWidth=\"10\" markerHeight=\"10\" refX=\"9\" refY=\"5\" orient=\"auto\">
<path d=\"M1,1 L9,5 L1,9\" style=\"stroke:#b91c1c;stroke-dasharray:none\"/></marker>
</defs>
<rect width=\"100%\" height=\"100%\" fill=\"#fff\"/>
";

/// The first line of a drawing, whose lower right corner is here.
#[derive(Clone, Copy)]
struct Opening {
    corner: Point,
}

impl fmt::Display for Opening {
    ghost use Rattle.std.specs.Prelude.{Some};
    ghost use Rattle.run_drawings.specs.Elements.{opening_text};

    ghost output = { λ o. Some (opening_text o.corner) };

    fn fmt<W: fmt::Write>(&self, f: &mut fmt::Formatter<W>) -> fmt::Result {
        let width = self.corner.x;
        let height = self.corner.y;
        write!(
            f,
            "<svg xmlns=\"http://www.w3.org/2000/svg\" width=\"{width}\" height=\"{height}\">"
        )
    }
}

/// The elements of a drawing, those that lie above others behind them.
fn elements_of<'a>(
    alloc: Global,
    layout: &Layout,
    picture: &'a Picture,
) -> Result<Vec<Element<'a>>, AllocError> {
    let mut elements = Vec::new(alloc);
    add_lives(alloc, layout, picture, &mut elements)?;
    add_arrows(layout, picture, &mut elements)?;
    add_notes(layout, picture, &mut elements)?;
    add_waits(layout, picture, &mut elements)?;
    Ok(elements)
}

/// The lines of these elements.
fn write_elements(elements: &[Element<'_>], out: &mut String) -> Result<(), AllocError>
    ensures { OnOk result (string_bytes out.new ≡ string_bytes out.old ++ lines_text elements.now) }
{
    for element in elements {
        writeln!(out, "{element}")?;
    }
    Ok(())
}

/// A drawing with these elements, whose lower right corner is here.
fn drawing_of(alloc: Global, corner: Point, elements: &[Element<'_>]) -> Result<String, AllocError>
    ensures { IfOk result (λ s. string_bytes s ≡
        opening_text corner ++ codes "\n" ++ STYLE.now ++ lines_text elements.now ++ codes "</svg>\n") }
{
    let opening = Opening { corner };
    let mut out = String::new(alloc);
    writeln!(out, "{opening}")?;
    out.push_str(STYLE)?;
    write_elements(elements, &mut out)?;
    out.push_str("</svg>\n")?;
    Ok(out)
}

/// A picture as SVG, which needs nothing else to be shown. The only error is want of memory.
pub fn svg_of(alloc: Global, picture: &Picture) -> Result<String, AllocError> {
    let layout = Layout::of(picture);
    let elements = elements_of(alloc, &layout, picture)?;
    drawing_of(alloc, layout.corner(), &elements)
}
