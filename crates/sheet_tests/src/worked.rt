//! The figures of the drawn sheet of the U channel, up to its first stroke, as a worked page has them.

pub(crate) const BLANK: &str =
    "<figure style=\"width:186mm\"><svg width=\"186mm\" height=\"111mm\" viewBox=\"-78.125 -119.912 232.5 138.75\" role=\"img\" aria-labelledby=\"f1t f1d\">\n\
<title id=\"f1t\">Blank, seen from side A</title><desc id=\"f1d\">The flat blank, 100 by 112.324 mm, with 2 bend lines. Distances are from the lower left corner of its extent.</desc>\n\
<clipPath id=\"f1c\"><path d=\"M-46.875 -2.588H146.875V114.912H-46.875Z\"/></clipPath><g transform=\"matrix(1 0 0 -1 0 0)\" clip-path=\"url(#f1c)\">\n\
<path class=\"sheet\" stroke-width=\"0\" d=\"M0 28.081H100V84.243H0Z\"/>\n\
<path class=\"sheet\" stroke-width=\"0\" d=\"M0 84.243H100V112.324H0Z\"/>\n\
<path class=\"sheet\" stroke-width=\"0\" d=\"M0 0H100V28.081H0Z\"/>\n\
<path class=\"edge\" stroke-width=\"0.375\" d=\"M0 28.081H100V84.243H0Z\"/>\n\
<path class=\"edge\" stroke-width=\"0.375\" d=\"M0 84.243H100V112.324H0Z\"/>\n\
<path class=\"edge\" stroke-width=\"0.375\" d=\"M0 0H100V28.081H0Z\"/>\n\
<path class=\"bare\" stroke-width=\"0.75\" d=\"M0 84.243L100 84.243\"/>\n\
<path class=\"bend\" stroke-width=\"0.5\" stroke-dasharray=\"3.75 1.25\" d=\"M0 84.243L100 84.243\"/>\n\
<path class=\"bare\" stroke-width=\"0.75\" d=\"M100 28.081L0 28.081\"/>\n\
<path class=\"bend\" stroke-width=\"0.5\" stroke-dasharray=\"3.75 1.25\" d=\"M100 28.081L0 28.081\"/>\n\
</g>\n\
<text class=\"in\" transform=\"translate(50 -56.662) scale(0.125)\" font-size=\"27\">web</text>\n\
<text class=\"in soft\" transform=\"translate(50 -53.162) scale(0.125)\" font-size=\"22\">face 0</text>\n\
<text class=\"in\" transform=\"translate(50 -98.783) scale(0.125)\" font-size=\"27\">north</text>\n\
<text class=\"in soft\" transform=\"translate(50 -95.283) scale(0.125)\" font-size=\"22\">face 1</text>\n\
<text class=\"in\" transform=\"translate(50 -14.54) scale(0.125)\" font-size=\"27\">south</text>\n\
<text class=\"in soft\" transform=\"translate(50 -11.04) scale(0.125)\" font-size=\"22\">face 2</text>\n\
<path class=\"thin\" stroke-width=\"0.125\" d=\"M0 0L-2.5 0L-6.25 0L-8.75 0\"/>\n\
<text class=\"e\" transform=\"translate(-9.25 1.125) scale(0.125)\" font-size=\"28\">0</text>\n\
<path class=\"guide\" stroke-width=\"0.125\" stroke-dasharray=\"0.375 0.625\" d=\"M0 -28.081L0 -28.081\"/>\n\
<path class=\"thin\" stroke-width=\"0.125\" d=\"M0 -28.081L-2.5 -28.081L-6.25 -28.081L-8.75 -28.081\"/>\n\
<text class=\"e\" transform=\"translate(-9.25 -26.956) scale(0.125)\" font-size=\"28\"><tspan class=\"soft\" font-size=\"24\">bend 2 </tspan>28.081</text>\n\
<path class=\"guide\" stroke-width=\"0.125\" stroke-dasharray=\"0.375 0.625\" d=\"M0 -84.243L0 -84.243\"/>\n\
<path class=\"thin\" stroke-width=\"0.125\" d=\"M0 -84.243L-2.5 -84.243L-6.25 -84.243L-8.75 -84.243\"/>\n\
<text class=\"e\" transform=\"translate(-9.25 -83.118) scale(0.125)\" font-size=\"28\"><tspan class=\"soft\" font-size=\"24\">bend 1 </tspan>84.243</text>\n\
<path class=\"thin\" stroke-width=\"0.125\" d=\"M0 -112.324L-2.5 -112.324L-6.25 -112.324L-8.75 -112.324\"/>\n\
<text class=\"big e\" transform=\"translate(-9.25 -111.199) scale(0.125)\" font-size=\"28\">112.324</text>\n\
<path class=\"thin\" stroke-width=\"0.125\" d=\"M0 0L0 2.5L0 6.25L0 8.75\"/>\n\
<text class=\"e\" transform=\"translate(1.125 9.25) scale(0.125) rotate(-90)\" font-size=\"28\">0</text>\n\
<path class=\"thin\" stroke-width=\"0.125\" d=\"M100 0L100 2.5L100 6.25L100 8.75\"/>\n\
<text class=\"big e\" transform=\"translate(101.125 9.25) scale(0.125) rotate(-90)\" font-size=\"28\">100</text>\n\
<circle class=\"up\" stroke-width=\"0.25\" cx=\"50\" cy=\"-84.243\" r=\"2.5\"/>\n\
<text class=\"big on\" transform=\"translate(50 -83.118) scale(0.125)\" font-size=\"26\">1</text>\n\
<circle class=\"up\" stroke-width=\"0.25\" cx=\"50\" cy=\"-28.081\" r=\"2.5\"/>\n\
<text class=\"big on\" transform=\"translate(50 -26.956) scale(0.125)\" font-size=\"26\">2</text>\n\
<path class=\"side-a\" stroke-width=\"0.25\" d=\"M0 -28.081L4.25 -28.081L0 -32.331Z\"/>\n\
</svg><figcaption>Blank, seen from side A<span class=\"scale\">1:1.25</span></figcaption></figure>\n";

pub(crate) const BED: &str =
    "<figure style=\"width:186mm\"><svg width=\"186mm\" height=\"18mm\" viewBox=\"-360 -260 3720 360\" role=\"img\" aria-labelledby=\"f2t f2d\">\n\
<title id=\"f2t\">The whole bed, from the front</title><desc id=\"f2d\">The bed from 0 to 3000 mm with 1 station.</desc>\n\
<clipPath id=\"f2c\"><path d=\"M-240 0H3240V100H-240Z\"/></clipPath><g transform=\"matrix(1 0 0 -1 0 0)\" clip-path=\"url(#f2c)\">\n\
<path class=\"edge\" stroke-width=\"4\" d=\"M0 20H3000V80H0Z\"/>\n\
<path class=\"solid\" stroke-width=\"2\" d=\"M200 20H300V80H200Z\"/>\n\
</g>\n\
<path class=\"thin\" stroke-width=\"2\" d=\"M250 -100L250 -116L250 -140L250 -152\"/>\n\
<text class=\"big\" transform=\"translate(250 -164) scale(2)\" font-size=\"30\">0</text>\n\
<text class=\"\" transform=\"translate(0 64) scale(2)\" font-size=\"24\">0</text>\n\
<text class=\"\" transform=\"translate(3000 64) scale(2)\" font-size=\"24\">3000</text>\n\
</svg><figcaption>The whole bed, from the front<span class=\"scale\">1:20</span></figcaption></figure>\n";

pub(crate) const FRONT: &str =
    "<figure style=\"width:186mm\"><svg width=\"186mm\" height=\"53mm\" viewBox=\"-215 -142.5 930 265\" role=\"img\" aria-labelledby=\"f3t f3d\">\n\
<title id=\"f3t\">The stations, from the front</title><desc id=\"f3d\">Punches above and dies below, over their ranges of x, cut into their pieces.</desc>\n\
<clipPath id=\"f3c\"><path d=\"M-210 -67.5H710V107.5H-210Z\"/></clipPath><g transform=\"matrix(1 0 0 -1 0 0)\" clip-path=\"url(#f3c)\">\n\
<path class=\"tool\" stroke-width=\"0.5\" d=\"M0 100H3000V400H0Z\" data-upper=\"0\"/>\n\
<path class=\"tool\" stroke-width=\"0.5\" d=\"M0 -360H3000V-60H0Z\" data-lower=\"0\"/>\n\
<path class=\"body\" stroke-width=\"1\" d=\"M200 0H300V100H200Z\"/>\n\
<path class=\"body\" stroke-width=\"1\" d=\"M200 -60H300V0H200Z\"/>\n\
</g>\n\
<path class=\"frame\" stroke-width=\"0.5\" d=\"M-210 -107.5H710V67.5H-210Z\"/>\n\
<path class=\"thin\" stroke-width=\"0.5\" d=\"M250 -107.5L250 -111.5L250 -117.5L250 -120.5\"/>\n\
<text class=\"big\" transform=\"translate(250 -123.5) scale(0.5)\" font-size=\"30\">0</text>\n\
<path class=\"thin\" stroke-width=\"0.5\" d=\"M200 60L200 73.5L200 85.5L200 89.5\"/>\n\
<text class=\"e\" transform=\"translate(204.5 91.5) scale(0.5) rotate(-90)\" font-size=\"26\">200</text>\n\
<path class=\"thin\" stroke-width=\"0.5\" d=\"M300 60L300 73.5L300 85.5L300 89.5\"/>\n\
<text class=\"e\" transform=\"translate(304.5 91.5) scale(0.5) rotate(-90)\" font-size=\"26\">300</text>\n\
</svg><figcaption>The stations, from the front<span class=\"scale\">1:5</span></figcaption></figure>\n";

pub(crate) const CARD: &str =
    "<figure style=\"width:38mm\"><svg width=\"38mm\" height=\"50mm\" viewBox=\"-76 -121.667 152 200\" role=\"img\" aria-labelledby=\"f4t f4d\">\n\
<title id=\"f4t\">Station 0, from the right</title><desc id=\"f4d\">Punch P100 above the die D16, the operator at the left.</desc>\n\
<clipPath id=\"f4c\"><path d=\"M-72 -74.333H72V117.667H-72Z\"/></clipPath><g transform=\"matrix(1 0 0 -1 0 0)\" clip-path=\"url(#f4c)\">\n\
<path class=\"tool\" stroke-width=\"0.4\" d=\"M-60 100H60V400H-60Z\" data-upper=\"0\"/>\n\
<path class=\"tool\" stroke-width=\"0.4\" d=\"M-6 6H6V100H-6Z\" data-upper=\"1\"/>\n\
<path class=\"tool\" stroke-width=\"0.4\" transform=\"matrix(1 1 -1 1 0 0)\" d=\"M0 0H6A6 6 0 0 1 0 6Z\"/>\n\
<path class=\"tool\" stroke-width=\"0.4\" d=\"M-30 -360H30V-60H-30Z\" data-lower=\"0\"/>\n\
<path class=\"tool\" stroke-width=\"0.4\" d=\"M-20 -60H-8V0H-20Z\" data-lower=\"1\"/>\n\
<path class=\"tool\" stroke-width=\"0.4\" d=\"M-8 -60H8V-8H-8Z\" data-lower=\"2\"/>\n\
<path class=\"tool\" stroke-width=\"0.4\" d=\"M8 -60H20V0H8Z\" data-lower=\"3\"/>\n\
<path class=\"vee\" stroke-width=\"0.4\" d=\"M-8 0L0 -8L8 0\"/>\n\
</g>\n\
<path class=\"frame\" stroke-width=\"0.4\" d=\"M-72 -117.667H72V74.333H-72Z\"/>\n\
</svg><figcaption>Station 0, from the right<span class=\"scale\">1:4</span></figcaption></figure>\n";

pub(crate) const BEFORE: &str =
    "<figure style=\"width:91mm\"><svg width=\"91mm\" height=\"49mm\" viewBox=\"-52.919 -64.087 182 98\" role=\"img\" aria-labelledby=\"f5t f5d\">\n\
<title id=\"f5t\">Before the stroke</title><desc id=\"f5d\">Side view along the bed, the operator at the left, the backgauge at the right: the stop fingers 84.243 mm behind the bend line.</desc>\n\
<clipPath id=\"f5c\"><path d=\"M-50.919 -19.913H127.081V62.087H-50.919Z\"/></clipPath><g transform=\"matrix(1 0 0 -1 0 0)\" clip-path=\"url(#f5c)\">\n\
<g transform=\"translate(0 -2)\">\n\
<path class=\"tool\" stroke-width=\"0.2\" d=\"M-30 -360H30V-60H-30Z\" data-lower=\"0\"/>\n\
<path class=\"tool\" stroke-width=\"0.2\" d=\"M-20 -60H-8V0H-20Z\" data-lower=\"1\"/>\n\
<path class=\"tool\" stroke-width=\"0.2\" d=\"M-8 -60H8V-8H-8Z\" data-lower=\"2\"/>\n\
<path class=\"tool\" stroke-width=\"0.2\" d=\"M8 -60H20V0H8Z\" data-lower=\"3\"/>\n\
<path class=\"vee\" stroke-width=\"0.2\" d=\"M-8 0L0 -8L8 0\"/>\n\
</g>\n\
<path class=\"tool\" stroke-width=\"0.2\" d=\"M-60 100H60V400H-60Z\" data-upper=\"0\"/>\n\
<path class=\"tool\" stroke-width=\"0.2\" d=\"M-6 6H6V100H-6Z\" data-upper=\"1\"/>\n\
<path class=\"tool\" stroke-width=\"0.2\" transform=\"matrix(1 1 -1 1 0 0)\" d=\"M0 0H6A6 6 0 0 1 0 6Z\"/>\n\
<path class=\"finger\" stroke-width=\"0.6\" d=\"M84.243 -12H104.243V10H84.243Z\"/>\n\
<path class=\"rest\" stroke-width=\"0.6\" d=\"M0 -2H56.162V0H0Z\" data-box=\"0\"/>\n\
<path class=\"rest\" stroke-width=\"0.6\" d=\"M56.162 -2H84.243V0H56.162Z\" data-box=\"1\"/>\n\
<path class=\"move\" stroke-width=\"0.6\" d=\"M-28.081 -2H0V0H-28.081Z\" data-box=\"2\"/>\n\
</g>\n\
<path class=\"frame\" stroke-width=\"0.2\" d=\"M-50.919 -62.087H127.081V19.913H-50.919Z\"/>\n\
<text class=\"soft s\" transform=\"translate(-49.319 18.113) scale(0.2)\" font-size=\"20\">operator</text>\n\
<text class=\"soft e\" transform=\"translate(125.481 18.113) scale(0.2)\" font-size=\"20\">backgauge</text>\n\
<path class=\"bend\" stroke-width=\"0.2\" stroke-dasharray=\"4 1.2 0.6 1.2\" d=\"M0 4L0 29.513\"/>\n\
<path class=\"thin\" stroke-width=\"0.2\" d=\"M84.243 12L84.243 29.513\"/>\n\
<path class=\"thin\" stroke-width=\"0.2\" d=\"M0 27.113L84.243 27.113\"/>\n\
<path class=\"head\" d=\"M0 27.113L4 25.913L4 28.313Z\"/>\n\
<path class=\"head\" d=\"M84.243 27.113L80.243 25.913L80.243 28.313Z\"/>\n\
<text class=\"big\" transform=\"translate(42.121 29.113) scale(0.2)\" font-size=\"30\">84.243</text>\n\
</svg><figcaption>Before the stroke<span class=\"scale\">1:2</span></figcaption></figure>\n";

pub(crate) const AFTER: &str =
    "<figure style=\"width:91mm\"><svg width=\"91mm\" height=\"49mm\" viewBox=\"-52.919 -64.087 182 98\" role=\"img\" aria-labelledby=\"f6t f6d\">\n\
<title id=\"f6t\">After the stroke</title><desc id=\"f6d\">Side view along the bed: both halves of the sheet turned up by 45 degrees, the die risen.</desc>\n\
<clipPath id=\"f6c\"><path d=\"M-50.919 -19.913H127.081V62.087H-50.919Z\"/></clipPath><g transform=\"matrix(1 0 0 -1 0 0)\" clip-path=\"url(#f6c)\">\n\
<g transform=\"translate(0 8) rotate(45) translate(-2 -2) rotate(-45)\">\n\
<path class=\"tool\" stroke-width=\"0.2\" d=\"M-30 -360H30V-60H-30Z\" data-lower=\"0\"/>\n\
<path class=\"tool\" stroke-width=\"0.2\" d=\"M-20 -60H-8V0H-20Z\" data-lower=\"1\"/>\n\
<path class=\"tool\" stroke-width=\"0.2\" d=\"M-8 -60H8V-8H-8Z\" data-lower=\"2\"/>\n\
<path class=\"tool\" stroke-width=\"0.2\" d=\"M8 -60H20V0H8Z\" data-lower=\"3\"/>\n\
<path class=\"vee\" stroke-width=\"0.2\" d=\"M-8 0L0 -8L8 0\"/>\n\
</g>\n\
<path class=\"tool\" stroke-width=\"0.2\" d=\"M-60 100H60V400H-60Z\" data-upper=\"0\"/>\n\
<path class=\"tool\" stroke-width=\"0.2\" d=\"M-6 6H6V100H-6Z\" data-upper=\"1\"/>\n\
<path class=\"tool\" stroke-width=\"0.2\" transform=\"matrix(1 1 -1 1 0 0)\" d=\"M0 0H6A6 6 0 0 1 0 6Z\"/>\n\
<g transform=\"rotate(-45)\">\n\
<path class=\"move\" stroke-width=\"0.6\" d=\"M-28.081 -2H0V0H-28.081Z\" data-box=\"2\"/>\n\
</g>\n\
<g transform=\"rotate(45)\">\n\
<path class=\"rest\" stroke-width=\"0.6\" d=\"M0 -2H56.162V0H0Z\" data-box=\"0\"/>\n\
<path class=\"rest\" stroke-width=\"0.6\" d=\"M56.162 -2H84.243V0H56.162Z\" data-box=\"1\"/>\n\
<path class=\"rest\" stroke-width=\"0.6\" d=\"M0 0V-2A2 2 0 0 0 -2 0Z\"/>\n\
</g>\n\
</g>\n\
<path class=\"frame\" stroke-width=\"0.2\" d=\"M-50.919 -62.087H127.081V19.913H-50.919Z\"/>\n\
<text class=\"soft s\" transform=\"translate(-49.319 18.113) scale(0.2)\" font-size=\"20\">operator</text>\n\
<text class=\"soft e\" transform=\"translate(125.481 18.113) scale(0.2)\" font-size=\"20\">backgauge</text>\n\
</svg><figcaption>After the stroke<span class=\"scale\">1:2</span></figcaption></figure>\n";

pub(crate) const ABOVE: &str =
    "<figure style=\"width:62mm\"><svg width=\"62mm\" height=\"42mm\" viewBox=\"95 -143.081 310 210\" role=\"img\" aria-labelledby=\"f7t f7d\">\n\
<title id=\"f7t\">From above</title><desc id=\"f7d\">The part on the die, the operator at the bottom. The left stop finger begins at x = 205, the right one at 285 mm.</desc>\n\
<clipPath id=\"f7c\"><path d=\"M100 -31.919H400V108.081H100Z\"/></clipPath><g transform=\"matrix(1 0 0 -1 0 0)\" clip-path=\"url(#f7c)\">\n\
<path class=\"tool\" stroke-width=\"0.5\" d=\"M200 -20H300V-8H200Z\" data-lower=\"1\"/>\n\
<path class=\"tool\" stroke-width=\"0.5\" d=\"M200 -8H300V8H200Z\" data-lower=\"2\"/>\n\
<path class=\"tool\" stroke-width=\"0.5\" d=\"M200 8H300V20H200Z\" data-lower=\"3\"/>\n\
<path class=\"rest\" stroke-width=\"1\" d=\"M200 0H300V56.162H200Z\" data-box=\"0\"/>\n\
<path class=\"rest\" stroke-width=\"1\" d=\"M200 56.162H300V84.243H200Z\" data-box=\"1\"/>\n\
<path class=\"move\" stroke-width=\"1\" d=\"M200 -28.081H300V0H200Z\" data-box=\"2\"/>\n\
<path class=\"bend\" stroke-width=\"2.5\" d=\"M200 0L300 0\"/>\n\
<path class=\"finger\" stroke-width=\"1.5\" d=\"M205 84.243H215V104.243H205Z\"/>\n\
<path class=\"finger\" stroke-width=\"1.5\" d=\"M285 84.243H295V104.243H285Z\"/>\n\
</g>\n\
<path class=\"frame\" stroke-width=\"0.5\" d=\"M100 -108.081H400V31.919H100Z\"/>\n\
<path class=\"thin\" stroke-width=\"0.5\" d=\"M205 -104.243L205 -110.081L205 -122.081L205 -125.081\"/>\n\
<text class=\"big\" transform=\"translate(205 -128.081) scale(0.5)\" font-size=\"28\">205</text>\n\
<path class=\"thin\" stroke-width=\"0.5\" d=\"M285 -104.243L285 -110.081L285 -122.081L285 -125.081\"/>\n\
<text class=\"big\" transform=\"translate(285 -128.081) scale(0.5)\" font-size=\"28\">285</text>\n\
<path class=\"guide\" stroke-width=\"0.5\" stroke-dasharray=\"1.5 2.5\" d=\"M200 0L200 31.919\"/>\n\
<path class=\"thin\" stroke-width=\"0.5\" d=\"M200 31.919L200 33.919L200 45.919L200 48.919\"/>\n\
<text class=\"\" transform=\"translate(200 60.919) scale(0.5)\" font-size=\"26\">200</text>\n\
<path class=\"guide\" stroke-width=\"0.5\" stroke-dasharray=\"1.5 2.5\" d=\"M300 0L300 31.919\"/>\n\
<path class=\"thin\" stroke-width=\"0.5\" d=\"M300 31.919L300 33.919L300 45.919L300 48.919\"/>\n\
<text class=\"\" transform=\"translate(300 60.919) scale(0.5)\" font-size=\"26\">300</text>\n\
<path class=\"side-a\" stroke-width=\"1\" d=\"M200 0L217 0L200 -17Z\"/>\n\
</svg><figcaption>From above<span class=\"scale\">1:5</span></figcaption></figure>\n";

pub(crate) const PART_BEFORE: &str =
    "<figure style=\"width:60mm\"><svg width=\"60mm\" height=\"42mm\" viewBox=\"126.8486 14.32112 180 126\" role=\"img\" aria-labelledby=\"f8t f8d\">\n\
<title id=\"f8t\">Part before</title><desc id=\"f8d\">The part as it lies before the stroke, seen from the right, the front and above.</desc>\n\
<clipPath id=\"f8c\"><path d=\"M129.8486 -137.32112H303.8486V-17.32112H129.8486Z\"/></clipPath><g transform=\"matrix(1 0 0 -1 0 0)\" clip-path=\"url(#f8c)\">\n\
<g data-box=\"1\">\n\
<path class=\"right\" stroke-width=\"0.3\" d=\"M273.6972 -82.64224L290.5458 -69.16336L290.5458 -67.56336L273.6972 -81.04224Z\"/>\n\
<path class=\"front\" stroke-width=\"0.3\" d=\"M193.6972 -46.64224L273.6972 -82.64224L273.6972 -81.04224L193.6972 -45.04224Z\"/>\n\
<path class=\"top\" stroke-width=\"0.3\" d=\"M193.6972 -45.04224L273.6972 -81.04224L290.5458 -67.56336L210.5458 -31.56336Z\"/>\n\
</g>\n\
<g data-box=\"0\">\n\
<path class=\"right\" stroke-width=\"0.3\" d=\"M240 -109.6L273.6972 -82.64224L273.6972 -81.04224L240 -108Z\"/>\n\
<path class=\"front\" stroke-width=\"0.3\" d=\"M160 -73.6L240 -109.6L240 -108L160 -72Z\"/>\n\
<path class=\"top\" stroke-width=\"0.3\" d=\"M160 -72L240 -108L273.6972 -81.04224L193.6972 -45.04224Z\"/>\n\
</g>\n\
<g data-box=\"2\">\n\
<path class=\"rightm\" stroke-width=\"0.3\" d=\"M223.1514 -123.07888L240 -109.6L240 -108L223.1514 -121.47888Z\"/>\n\
<path class=\"frontm\" stroke-width=\"0.3\" d=\"M143.1514 -87.07888L223.1514 -123.07888L223.1514 -121.47888L143.1514 -85.47888Z\"/>\n\
<path class=\"topm\" stroke-width=\"0.3\" d=\"M143.1514 -85.47888L223.1514 -121.47888L240 -108L160 -72Z\"/>\n\
</g>\n\
<path class=\"bend\" stroke-width=\"1.2\" stroke-dasharray=\"6 3\" d=\"M160 -72L240 -108\"/>\n\
</g>\n\
</svg><figcaption>Part before<span class=\"scale\">1:3</span></figcaption></figure>\n";

pub(crate) const PART_AFTER: &str =
    "<figure style=\"width:60mm\"><svg width=\"60mm\" height=\"42mm\" viewBox=\"126.8486 14.32112 180 126\" role=\"img\" aria-labelledby=\"f9t f9d\">\n\
<title id=\"f9t\">Part after</title><desc id=\"f9d\">The part after the stroke, seen in the same way; face 0 is held as before.</desc>\n\
<clipPath id=\"f9c\"><path d=\"M129.8486 -137.32112H303.8486V-17.32112H129.8486Z\"/></clipPath><g transform=\"matrix(1 0 0 -1 0 0)\" clip-path=\"url(#f9c)\">\n\
<g data-box=\"1\">\n\
<path class=\"right\" stroke-width=\"0.3\" d=\"M273.6972 -82.64224L290.5458 -69.16336L290.5458 -67.56336L273.6972 -81.04224Z\"/>\n\
<path class=\"front\" stroke-width=\"0.3\" d=\"M193.6972 -46.64224L273.6972 -82.64224L273.6972 -81.04224L193.6972 -45.04224Z\"/>\n\
<path class=\"top\" stroke-width=\"0.3\" d=\"M193.6972 -45.04224L273.6972 -81.04224L290.5458 -67.56336L210.5458 -31.56336Z\"/>\n\
</g>\n\
<g data-box=\"0\">\n\
<path class=\"right\" stroke-width=\"0.3\" d=\"M240 -109.6L273.6972 -82.64224L273.6972 -81.04224L240 -108Z\"/>\n\
<path class=\"front\" stroke-width=\"0.3\" d=\"M160 -73.6L240 -109.6L240 -108L160 -72Z\"/>\n\
<path class=\"top\" stroke-width=\"0.3\" d=\"M160 -72L240 -108L273.6972 -81.04224L193.6972 -45.04224Z\"/>\n\
</g>\n\
<g data-box=\"14\">\n\
<path class=\"rightm\" stroke-width=\"0.3\" d=\"M238.8486 -110.52112L240 -109.6L240 -108.0648L238.8486 -108.98592Z\"/>\n\
<path class=\"frontm\" stroke-width=\"0.3\" d=\"M158.8486 -74.52112L238.8486 -110.52112L238.8486 -108.98592L158.8486 -72.98592Z\"/>\n\
<path class=\"topm\" stroke-width=\"0.3\" d=\"M158.8486 -72.98592L238.8486 -108.98592L240 -108.0648L160 -72.0648Z\"/>\n\
</g>\n\
<g data-box=\"2\">\n\
<path class=\"rightm\" stroke-width=\"0.3\" d=\"M238.8486 -108.98592L240.0486 -108.02592L240.0486 -85.56112L238.8486 -86.52112Z\"/>\n\
<path class=\"frontm\" stroke-width=\"0.3\" d=\"M158.8486 -72.98592L238.8486 -108.98592L238.8486 -86.52112L158.8486 -50.52112Z\"/>\n\
<path class=\"topm\" stroke-width=\"0.3\" d=\"M158.8486 -50.52112L238.8486 -86.52112L240.0486 -85.56112L160.0486 -49.56112Z\"/>\n\
</g>\n\
</g>\n\
</svg><figcaption>Part after<span class=\"scale\">1:3</span></figcaption></figure>\n";
