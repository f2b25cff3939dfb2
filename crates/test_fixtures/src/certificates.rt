//! The texts of the worked certificates, in the pieces that tests put together.

/// The lines of the U channel.
const U_CHANNEL: &str = "part S235 2000 2000 1919
face web 100000 60000
face north 0 N 0 100000 30000 up
face south 0 S 0 100000 30000 up
";

/// The lines of a base with two flanges on one side.
const TWO_FLANGES: &str = "part S235 2000 2000 1919
face base 100000 60000
face left 0 N 0 45000 30000 up
face right 0 N 55000 45000 30000 up
";

/// The lines of the machine, from its bed to its costs.
const MACHINE: &str = "bed 0 3000000
upper 0 3000000 -60000 60000 0 300000
lower 0 3000000 -30000 30000 -300000 0
uncovered 5000
gauge 5000 600000 5000 10000 10000 20000 10000 10000
cost 100 20 30 60 80 40
";

/// The lines of its stage.
const STAGE: &str = "stage 200000 300000
punch P100 100000 6000
box -6000 6000 6000 100000
die D16 60000 16000 11000
box -20000 -8000 -60000 0
box -8000 8000 -60000 -8000
box 8000 20000 -60000 0
pieces 100000
";

/// The lines of the U channel's job up to the claim, in version 1.
pub const VERSION_1_JOB: [&str; 4] = ["brake-cert 1\n", U_CHANNEL, MACHINE, STAGE];

/// The same in version 2. A table file has them too, but for the first.
pub const VERSION_2_JOB: [&str; 6] = [
    "brake-cert 2\n",
    U_CHANNEL,
    MACHINE,
    "gang 0\nforce 0\n",
    STAGE,
    "load 0 0\n",
];

/// The same where a piece may be halved ten times in a row.
pub const FINE_JOB: [&str; 6] = [
    "brake-cert 2\n",
    U_CHANNEL,
    MACHINE,
    "gang 0\nforce 0\nfine 10\n",
    STAGE,
    "load 0 0\n",
];

/// The lines of the job of two flanges that are bent in one stroke, in version 2.
pub const GANG_JOB: [&str; 6] = [
    "brake-cert 2\n",
    TWO_FLANGES,
    MACHINE,
    "gang 1\nforce 0\n",
    STAGE,
    "load 0 0\n",
];

/// The U channel's claim and steps.
pub const STEPS: &str = "claim 200
step 2 P 0 1 1
step 1 C 0 1 1
";

/// The U channel's rows with their notes, and the end.
pub const ROWS: &str = "row 0 0 0 200
row 1 0 0 130
x 2 P 0 8
row 2 0 0 100
end
";
