// The shares of the pairs of a neighbourhood.
ghost use Rattle.std.specs.Prelude.{◌≡◌};
ghost use Rattle.ego.specs.Inside.Words.{share_table};

use crate::limits::LIMIT;

// The counts of common neighbours: two of LIMIT neighbours have at most LIMIT - 2.
pub const COUNTS: usize = LIMIT - 1;

// UNIT / (c + 1), for each count c.
const SHARES: [u64; COUNTS] = [
    5342931457063200,
    2671465728531600,
    1780977152354400,
    1335732864265800,
    1068586291412640,
    890488576177200,
    763275922437600,
    667866432132900,
    593659050784800,
    534293145706320,
    485721041551200,
    445244288088600,
    410994727466400,
    381637961218800,
    356195430470880,
    333933216066450,
    314290085709600,
    296829525392400,
    281206918792800,
    267146572853160,
    254425307479200,
    242860520775600,
    232301367698400,
    222622144044300,
    213717258282528,
    205497363733200,
    197886350261600,
    190818980609400,
    184239015760800,
    178097715235440,
    172352627647200,
    166966608033225,
    161907013850400,
    157145042854800,
    152655184487520,
    148414762696200,
    144403552893600,
    140603459396400,
    136998242488800,
];

// What an unlinked pair gives, by how many bits its words share. A table, since a division takes longer than the rest of a pair; made once for a
// score, since each use of the constant makes it anew.
pub fn shares() -> [u64; COUNTS]
    ensures { result ≡ share_table }
{
    SHARES
}
