//! Scales and labels at their ends, and the lines of one figure, on texts from outside.

ghost use Rattle.sheet_paper.specs.Windows.{IsWindow};
ghost use Rattle.sheet_paper.specs.FigureLines.{IsLabel, label_data};

use crate::asserts::assert_equal;
use sheet_paper::{
    Area, Dashes, Label, Paper, Window, least_scale, put_circle, put_dimension, put_figure,
    put_figure_end, put_frame, put_label, put_label_upright, put_leader, put_line_between,
    put_noted, put_noted_upright, put_shapes_end, put_triangle, spread,
};
use std::test::Fail;

#[test]
fn scales(rt: HostRuntime) -> Result<(), Fail> {
    let cases = [
        (890, 0, 1),
        (891, 0, 2),
        (0, 411, 2),
        (890 * 80 + 1, 0, 100),
        (178_000, 82_000, 200),
        (178_000, 82_001, 250),
        (890 * 8_000_000, 410 * 8_000_000, 8_000_000),
        (890 * 8_000_000 + 1, 0, 8_000_000),
    ];
    for (width, height, scale) in cases {
        assert_equal(&rt, &least_scale(width, height, 890, 410), &scale);
    }
    Ok(())
}

#[test]
fn labels_apart(rt: HostRuntime) -> Result<(), Fail> {
    let cases: [(&[i64], i64, &[i64]); 4] = [
        (&[10, 60], 100, &[10, 60]),
        (&[10, 15], 100, &[10, 30]),
        (&[90, 95], 100, &[80, 100]),
        (&[-5, 0, 99], 30, &[-10, 10, 30]),
    ];
    for (places, high, apart) in cases {
        assert_equal(&rt, &spread(places, 0, high, 20).as_slice(), &apart);
    }
    Ok(())
}

/// The window of the view before the first stroke of a U channel, as the specification of the page
/// works it out.
fn before() -> Window
    ensures { IsWindow result }
{
    let paper = Paper {
        bottom: 7,
        ..Paper::framed(91, 49, 1)
    };
    let area = Area {
        x0: -28_081,
        x1: 104_243,
        y0: -18_000,
        y1: 60_174,
    };
    Window::around(paper, paper.scale_for(&area), &area, 5)
}

/// The label at the window's lower left corner.
fn operator(window: &Window) -> Label
    requires { IsWindow window.now }
    ensures { IsLabel (label_data result) }
{
    Label {
        at: (window.x, window.foot()),
        moved: (8, 9),
        size: 20,
        class: b"soft s",
    }
}

const BEFORE: &[u8] =
    b"<figure style=\"width:91mm\"><svg width=\"91mm\" height=\"49mm\" viewBox=\"-52.919 -64.087 182 98\" role=\"img\" aria-labelledby=\"f5t f5d\">
<title id=\"f5t\">Before</title><desc id=\"f5d\">Side view</desc>
<clipPath id=\"f5c\"><path d=\"M-50.919 -19.913H127.081V62.087H-50.919Z\"/></clipPath><g transform=\"matrix(1 0 0 -1 0 0)\" clip-path=\"url(#f5c)\">
</g>
<path class=\"frame\" stroke-width=\"0.2\" d=\"M-50.919 -62.087H127.081V19.913H-50.919Z\"/>
<text class=\"soft s\" transform=\"translate(-49.319 18.113) scale(0.2)\" font-size=\"20\">operator</text>
<path class=\"bend\" stroke-width=\"0.2\" stroke-dasharray=\"4 1.2 0.6 1.2\" d=\"M0 4L0 29.513\"/>
<path class=\"thin\" stroke-width=\"0.2\" d=\"M0 27.113L84.243 27.113\"/>
<path class=\"head\" d=\"M0 27.113L4 25.913L4 28.313Z\"/>
<path class=\"head\" d=\"M84.243 27.113L80.243 25.913L80.243 28.313Z\"/>
<text class=\"big\" transform=\"translate(42.121 29.113) scale(0.2)\" font-size=\"30\">84.243</text>
</svg><figcaption>Before<span class=\"scale\">1:2</span></figcaption></figure>
";

#[test]
fn figure(rt: HostRuntime) -> Result<(), Fail> {
    let mut out = Vec::new(rt.alloc());
    let window = before();
    put_figure(&mut out, &window, b"Before", b"Side view")?;
    put_shapes_end(&mut out)?;
    put_frame(&mut out, &window)?;
    let operator = operator(&window);
    put_label(&mut out, &window, &operator, b"operator")?;
    let bend: (&'static [u8], i64, Dashes) = (b"bend", 1, Dashes::Dotted(20, 6, 3, 6));
    put_line_between(&mut out, &window, bend, (0, 4_000), (0, 29_513))?;
    put_dimension(&mut out, &window, 0, 84_243, 27_113, b"84.243")?;
    put_figure_end(&mut out, &window, b"Before")?;
    assert_equal(&rt, &out.as_slice(), &BEFORE);
    Ok(())
}

#[test]
fn marks(rt: HostRuntime) -> Result<(), Fail> {
    let mut out = Vec::new(rt.alloc());
    let window = before();
    put_leader(&mut out, &window, (0, 1), (0, -2), (3, 4), (3, 5))?;
    put_triangle(&mut out, &window, (b"side-a", 2), (0, 0), (34, 0), (0, -34))?;
    put_circle(&mut out, &window, (b"up", 2), (10, 20), 18)?;
    let note = Label {
        at: (0, 0),
        moved: (0, 9),
        size: 28,
        class: b"e",
    };
    put_noted(&mut out, &window, &note, b"bend 1", b"<5>")?;
    put_noted_upright(&mut out, &window, &note, b"", b"5")?;
    put_label_upright(&mut out, &window, &note, b"6")?;
    assert_equal(&rt, &out.as_slice(), &MARKS);
    Ok(())
}

const MARKS: &[u8] =
    b"<path class=\"thin\" stroke-width=\"0.2\" d=\"M0 0.001L0 -0.002L0.003 0.004L0.003 0.005\"/>
<path class=\"side-a\" stroke-width=\"0.4\" d=\"M0 0L0.034 0L0 -0.034Z\"/>
<circle class=\"up\" stroke-width=\"0.4\" cx=\"0.01\" cy=\"0.02\" r=\"3.6\"/>
<text class=\"e\" transform=\"translate(0 -1.8) scale(0.2)\" font-size=\"28\"><tspan class=\"soft\" font-size=\"24\">bend 1 </tspan>&lt;5&gt;</text>
<text class=\"e\" transform=\"translate(0 -1.8) scale(0.2) rotate(-90)\" font-size=\"28\">5</text>
<text class=\"e\" transform=\"translate(0 -1.8) scale(0.2) rotate(-90)\" font-size=\"28\">6</text>
";
