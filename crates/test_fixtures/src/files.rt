//! The texts of files that the tests of several crates read. Sheets are 2,000 micrometres thick with
//! an inner radius of 2,000, so that half of a bend's deduction is 1,919.

/// A base of 100,000 by 50,000 micrometres with a leg of 30,000 on its side N.
pub const L_SECTION: &str = "material = \"S235\"
thickness = 2000
radius = 2000
[[face]]
name = \"base\"
width = 100000
length = 50000
[[face]]
name = \"leg\"
on = \"base\"
side = \"N\"
at = 0
width = 100000
length = 30000
dir = \"up\"
";

/// A web of 100,000 by 60,000 micrometres with legs of 30,000 on its sides N and S.
pub const U_CHANNEL: &str = "material = \"S235\"
thickness = 2000
radius = 2000
[[face]]
name = \"web\"
width = 100000
length = 60000
[[face]]
name = \"north\"
on = \"web\"
side = \"N\"
at = 0
width = 100000
length = 30000
dir = \"up\"
[[face]]
name = \"south\"
on = \"web\"
side = \"S\"
at = 0
width = 100000
length = 30000
dir = \"up\"
";

/// A base with a flange on each of its four sides.
pub const PAN: &str = "material = \"S235\"
thickness = 2000
radius = 2000
[[face]]
name = \"base\"
width = 90000
length = 60000
[[face]]
name = \"north\"
on = \"base\"
side = \"N\"
at = 2000
width = 86000
length = 25000
dir = \"up\"
[[face]]
name = \"south\"
on = \"base\"
side = \"S\"
at = 2000
width = 86000
length = 25000
dir = \"up\"
[[face]]
name = \"east\"
on = \"base\"
side = \"E\"
at = 2000
width = 56000
length = 25000
dir = \"up\"
[[face]]
name = \"west\"
on = \"base\"
side = \"W\"
at = 2000
width = 56000
length = 25000
dir = \"up\"
";

/// A lid of 105,000 by 105,000 with walls of 25,000 on its four sides.
pub const LID: &str = "material = \"S235\"
thickness = 2000
radius = 2000
[[face]]
name = \"pan\"
width = 105000
length = 105000
[[face]]
name = \"n\"
on = \"pan\"
side = \"N\"
at = 2000
width = 101000
length = 25000
dir = \"up\"
[[face]]
name = \"s\"
on = \"pan\"
side = \"S\"
at = 2000
width = 101000
length = 25000
dir = \"up\"
[[face]]
name = \"e\"
on = \"pan\"
side = \"E\"
at = 2000
width = 101000
length = 25000
dir = \"up\"
[[face]]
name = \"w\"
on = \"pan\"
side = \"W\"
at = 2000
width = 101000
length = 25000
dir = \"up\"
";

/// A part whose faces 1 and 4 overlap in the blank.
pub const FLAT_OVERLAP: &str = "material = \"S235\"
thickness = 2000
radius = 2000
[[face]]
name = \"base\"
width = 60000
length = 60000
[[face]]
name = \"north\"
on = \"base\"
side = \"N\"
at = 2000
width = 56000
length = 40000
dir = \"up\"
[[face]]
name = \"east\"
on = \"base\"
side = \"E\"
at = 2000
width = 56000
length = 40000
dir = \"up\"
[[face]]
name = \"third\"
on = \"east\"
side = \"W\"
at = 2000
width = 38000
length = 60000
dir = \"up\"
[[face]]
name = \"fourth\"
on = \"third\"
side = \"W\"
at = 20000
width = 30000
length = 30000
dir = \"up\"
";

/// Two flanges on one side of a face.
pub const TWO_FLANGES: &str = "material = \"S235\"
thickness = 2000
radius = 2000
[[face]]
name = \"base\"
width = 100000
length = 60000
[[face]]
name = \"left\"
on = \"base\"
side = \"N\"
at = 0
width = 45000
length = 30000
dir = \"up\"
[[face]]
name = \"right\"
on = \"base\"
side = \"N\"
at = 55000
width = 45000
length = 30000
dir = \"up\"
";

/// A face 20,000 micrometres wide with a flange on its long side E.
pub const EAST_FLANGE: &str = "material = \"S235\"
thickness = 2000
radius = 2000
[[face]]
name = \"base\"
width = 20000
length = 100000
[[face]]
name = \"east\"
on = \"base\"
side = \"E\"
at = 0
width = 100000
length = 30000
dir = \"up\"
";

/// A shop's tools: one row of deductions, one punch, one die, no loads.
pub const TOOLS: &str = "[[allow]]
material = \"S235\"
thickness = 2000
radius = 2000
k = 650
[[punch]]
name = \"P100\"
height = 100000
nose = 6000
body = [[-6000, 6000, 6000, 100000]]
sections = [[100000, 2], [90000, 1], [70000, 1], [60000, 1], [56000, 1], [45000, 1]]
[[die]]
name = \"D16\"
height = 60000
v = 16000
least_flange = 11000
body = [[-20000, -8000, -60000, 0], [-8000, 8000, -60000, -8000], [8000, 20000, -60000, 0]]
sections = [[100000, 2], [90000, 1], [70000, 1], [60000, 1], [56000, 1], [45000, 1]]
";

/// A machine without stages.
pub const MACHINE: &str = "bed = [0, 3000000]
uncovered = 5000
upper = [[0, 3000000, -60000, 60000, 0, 300000]]
lower = [[0, 3000000, -30000, 30000, -300000, 0]]
[gauge]
near = 5000
far = 600000
inset = 5000
finger = 10000
gap = 10000
depth = 20000
above = 10000
below = 10000
[cost]
stroke = 100
quarter = 20
half = 30
flip = 60
roll = 80
stage = 40
";

/// The stage of that machine, from 200,000 to 300,000.
pub const STAGE: &str = "[[stage]]
punch = \"P100\"
die = \"D16\"
at = 200000
pieces = [100000]
";
