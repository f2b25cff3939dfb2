//! The longer words of tools and reasons.

pub(crate) const OF_STATION: &[u8] = b" of station ";

pub(crate) const TOOLS_BEND_AT_MOST: &[u8] = b" mm of tools bend at most ";

pub(crate) const FROM_BEND_LINE: &[u8] = b" mm from the bend line, and ";

pub(crate) const NEEDS_AT_LEAST: &[u8] = b" needs at least ";

pub(crate) const IN_SIDE_FRAME: &[u8] = b" would stand in the side frame from x = ";

pub(crate) const NO_FLAT_EDGE: &[u8] = b"no flat edge behind the bend line, ";

pub(crate) const ROOM_FOR_FINGERS: &[u8] = b" mm away, has room for both stop fingers";

pub(crate) const BEND_NEEDS: &[u8] = b"the bend needs ";

pub(crate) const TOOLS_BEAR: &[u8] = b", and the tools bear ";

pub(crate) const MACHINE_GIVES: &[u8] = b", and the machine gives ";

pub(crate) const BEAM: &[u8] = b"the beam above the punches";

pub(crate) const BED: &[u8] = b"the bed under the dies";
