//! The forms of a figure's lines, each with its holes.

pub const FIGURE: &[u8] =
    b"<figure style=\"width:~mm\"><svg width=\"~mm\" height=\"~mm\" viewBox=\"~ ~ ~ ~\" role=\"img\" aria-labelledby=\"f~t f~d\">";

pub const TITLE: &[u8] = b"<title id=\"f~t\">~</title><desc id=\"f~d\">~</desc>";

pub const WINDOW: &[u8] =
    b"<clipPath id=\"f~c\"><path d=\"M~ ~H~V~H~Z\"/></clipPath><g transform=\"matrix(1 0 0 -1 0 0)\" clip-path=\"url(#f~c)\">";

pub const GROUP_END: &[u8] = b"</g>";

pub const FIGURE_END: &[u8] =
    b"</svg><figcaption>~<span class=\"scale\">~:~</span></figcaption></figure>";

pub const RECTANGLE: &[u8] = b"<path class=\"~\" stroke-width=\"~\" d=\"M~ ~H~V~H~Z\"/>";

pub const LINE: &[u8] = b"<path class=\"~\" stroke-width=\"~\" d=\"M~ ~L~ ~\"/>";

pub const DASHED: &[u8] =
    b"<path class=\"~\" stroke-width=\"~\" stroke-dasharray=\"~ ~\" d=\"M~ ~L~ ~\"/>";

pub const DOTTED: &[u8] =
    b"<path class=\"~\" stroke-width=\"~\" stroke-dasharray=\"~ ~ ~ ~\" d=\"M~ ~L~ ~\"/>";

pub const LEADER: &[u8] = b"<path class=\"thin\" stroke-width=\"~\" d=\"M~ ~L~ ~L~ ~L~ ~\"/>";

pub const HEAD: &[u8] = b"<path class=\"head\" d=\"M~ ~L~ ~L~ ~Z\"/>";

pub const CORNER: &[u8] = b"<path class=\"~\" stroke-width=\"~\" d=\"M~ ~L~ ~L~ ~Z\"/>";

pub const CIRCLE: &[u8] = b"<circle class=\"~\" stroke-width=\"~\" cx=\"~\" cy=\"~\" r=\"~\"/>";

pub const TEXT: &[u8] =
    b"<text class=\"~\" transform=\"translate(~ ~) scale(~)\" font-size=\"~\">~</text>";

pub const TEXT_WITH: &[u8] =
    b"<text class=\"~\" transform=\"translate(~ ~) scale(~)\" font-size=\"~\"><tspan class=\"soft\" font-size=\"~\">~ </tspan>~</text>";

pub const TEXT_UPRIGHT: &[u8] =
    b"<text class=\"~\" transform=\"translate(~ ~) scale(~) rotate(-90)\" font-size=\"~\">~</text>";

pub const TEXT_UPRIGHT_WITH: &[u8] =
    b"<text class=\"~\" transform=\"translate(~ ~) scale(~) rotate(-90)\" font-size=\"~\"><tspan class=\"soft\" font-size=\"~\">~ </tspan>~</text>";
