//! The forms of the lines of figures that say what they show.

pub const LOWERED: &[u8] = b"<g transform=\"translate(0 ~)\">";

pub const RISEN: &[u8] = b"<g transform=\"translate(0 ~) rotate(45) translate(~ ~) rotate(-45)\">";

pub const TURNED: &[u8] = b"<g transform=\"rotate(~)\">";

pub const MIRRORED: &[u8] = b"<g transform=\"matrix(-1 0 0 1 0 0)\">";

pub const PART_BOX: &[u8] =
    b"<path class=\"~\" stroke-width=\"~\" d=\"M~ ~H~V~H~Z\" data-box=\"~\"/>";

pub const PART_BOX_BESIDE: &[u8] =
    b"<path class=\"beside\" stroke-width=\"~\" stroke-dasharray=\"~ ~\" d=\"M~ ~H~V~H~Z\" data-box=\"~\"/>";

pub const UPPER_BOX: &[u8] =
    b"<path class=\"tool\" stroke-width=\"~\" d=\"M~ ~H~V~H~Z\" data-upper=\"~\"/>";

pub const LOWER_BOX: &[u8] =
    b"<path class=\"tool\" stroke-width=\"~\" d=\"M~ ~H~V~H~Z\" data-lower=\"~\"/>";

pub const NOSE: &[u8] =
    b"<path class=\"~\" stroke-width=\"~\" transform=\"matrix(1 1 -1 1 0 0)\" d=\"M0 0H~A~ ~ 0 0 1 0 ~Z\"/>";

pub const VEE: &[u8] = b"<path class=\"vee\" stroke-width=\"~\" d=\"M~ 0L0 ~L~ 0\"/>";

pub const BEND_ARC: &[u8] =
    b"<path class=\"rest\" stroke-width=\"~\" d=\"M0 0V~A~ ~ 0 0 0 ~ 0Z\"/>";

pub const FACE: &[u8] = b"<path class=\"~\" stroke-width=\"~\" d=\"M~ ~L~ ~L~ ~L~ ~Z\"/>";

pub const BOX_OF_FACES: &[u8] = b"<g data-box=\"~\">";

pub const CULPRIT: &[u8] =
    b"<path class=\"culprit\" stroke-width=\"~\" d=\"M~ ~H~V~H~Z\" data-box=\"~\"/>";

pub const GHOST: &[u8] =
    b"<path class=\"ghost\" stroke-width=\"~\" stroke-dasharray=\"~ ~\" d=\"M~ ~H~V~H~Z\"/>";

pub const WEDGE: &[u8] = b"<clipPath id=\"f~w\"><path d=\"M0 0L~ ~L~ ~L~ ~L~ ~Z\"/></clipPath>";

pub const RING: &[u8] =
    b"<path class=\"cover\" fill-rule=\"evenodd\" stroke-width=\"~\" clip-path=\"url(#f~w)\" d=\"M~ 0A~ ~ 0 0 1 ~ 0A~ ~ 0 0 1 ~ 0ZM~ 0A~ ~ 0 0 1 ~ 0A~ ~ 0 0 1 ~ 0Z\"/>";
