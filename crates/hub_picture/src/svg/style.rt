//! How shapes look.

ghost use Rattle.hub_picture.specs.Reading.{Elements};

use crate::piece::put;
use std::alloc::AllocError;

/// The rules of the style.
const STYLE: &[u8] =
    b"text{font-family:sans-serif;font-size:11px;fill:#222;text-anchor:middle}.paper{fill:#fff}\n\
.name,.note{font-size:11px}.name{text-anchor:end}.note{text-anchor:start;fill:#595959}.tick{font-size:9px;fill:#595959}\n\
.lane{stroke:#808080}.strip path{stroke:#808080}.level rect{fill:currentColor}.stay{font-size:9px;text-anchor:start}\n\
.dense .box text{font-size:7px}.dead{font-weight:bold}\n\
.whom path{fill:none;stroke:#c85000;stroke-width:2;marker-end:url(#tip)}.tip{fill:#595959}\n\
.arrow path{fill:none;stroke:currentColor;stroke-width:2;marker-end:url(#tip)}.mark{stroke:#fff}marker path,.mark{fill:currentColor}\n\
.arrow.h0 path{marker-start:url(#m0)}.arrow.h1 path{marker-start:url(#m1)}.arrow.h2 path{marker-start:url(#m2)}\n\
.arrow.h3 path{marker-start:url(#m3)}\n\
.arrow.h4 path{marker-start:url(#m4)}.arrow.h5 path{marker-start:url(#m5)}.arrow.h6 path{marker-start:url(#m6)}\n\
.arrow.h7 path{marker-start:url(#m7)}\n\
.arrow.comes path{marker-start:none}.arrow.leaves path{marker-end:none}\n\
.h0{color:#475666}.h1{color:#0072b2}.h2{color:#9a5b00}.h3{color:#007a58}.h4{color:#b03a78}.h5{color:#6a4fc0}.h6{color:#006f80}\n\
.h7{color:#666600}\n\
.box rect,.bar rect{fill:#ddd;stroke:#6b6b6b;stroke-width:1.5}.bar circle{fill:#6b6b6b}\n\
.box.send rect{fill:currentColor;stroke:currentColor}.box.receive rect,.bar.receive rect{fill:#fff;stroke:currentColor}\n\
.cases{font-size:10px;fill-opacity:.75}.fired{fill-opacity:1;font-weight:bold}\n\
.box.port rect{stroke:currentColor;stroke-width:3}.box.send text{fill:#fff}\n\
.bar.send rect{fill:currentColor;fill-opacity:.38;stroke:currentColor}.bar.send circle{fill:currentColor}\n\
.bar.receive circle{fill:#fff;stroke:currentColor;stroke-width:2}.box.drained rect{stroke-dasharray:2 3}\n\
.box.trouble rect,.box.refused rect{stroke:#c85000;stroke-width:3;stroke-dasharray:6 2}.bar.trouble circle{fill:#c85000;stroke:none}\n\
.box.cancelled rect{stroke-dasharray:1 2}.box.open rect,.bar.open rect{stroke-dasharray:4 3}.stall rect{fill:#c85000;fill-opacity:.12}\n\
@media (prefers-color-scheme:dark){text{fill:#e8e8e8}.tick,.note{fill:#a8a8a8}.tip{fill:#a8a8a8}.paper{fill:#16181c}.mark{stroke:#16181c}\n\
.h0{color:#b8c4d0}.h1{color:#56b4e9}.h2{color:#e69f00}.h3{color:#2fc79a}.h4{color:#e58bc0}.h5{color:#a99bff}.h6{color:#4fd3dc}\n\
.h7{color:#cfcf4a}\n\
.box rect,.bar rect{fill:#3a3d42;stroke:#a8a8a8}.bar circle{fill:#a8a8a8}\n\
.box.send rect{fill:currentColor;stroke:currentColor}.box.send text{fill:#000}\n\
.box.receive rect,.bar.receive rect,.bar.receive circle{fill:#16181c;stroke:currentColor}.box.port rect{stroke:currentColor}\n\
.bar.send rect{fill:currentColor;stroke:currentColor}.bar.send circle{fill:currentColor}\n\
.box.trouble rect,.box.refused rect{stroke:#ff8533}.bar.trouble circle{fill:#ff8533;stroke:none}\n\
.stall rect{fill:#ff8533}.whom path{stroke:#ff8533}}\n";

/// Appends the rules of the style.
pub(crate) fn put_style(out: &mut Vec<u8>) -> Result<(), AllocError>
    ensures { Elements out.old out.new result }
{
    put(out, STYLE)
}
