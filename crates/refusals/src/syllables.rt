// Refusals 3, 4 and 5: tests of each syllable, the lowest place first.
ghost use Rattle.std.specs.Prelude.{◌≡◌, not, ◌||◌, ◌&&◌, ◌<◌, eqb, leb, length};
ghost use Rattle.word.specs.Bytes.{words};
ghost use Rattle.isa.specs.Control.{is_control};
ghost use Rattle.isa.specs.Lowest.{lowest};
ghost use Rattle.isa.specs.Program.{cluster};
ghost use Rattle.isa.specs.Syllable.{opcode, source, is_copy};
ghost use Rattle.refusals.specs.Broken.{no_end_at, bad_bits_at, bad_cluster, bad_cluster_at};

use isa::control::is_control;
use isa::program::syllable;
use isa::stretch::cluster;
use isa::syllable::{ends, is_copy, opcode, opens, source};
use isa::walk::spots;
use isa::{Place, Spot};

// 3: the last syllable lacks bit 31.
pub fn no_end(program: &[u8]) -> Option<Place>
    requires { 0 < length (words program.now) }
    ensures { result ≡ lowest (no_end_at (words program.now)) (length (words program.now)) }
{
    let last = Place(program.len() / 4 - 1);
    if ends(syllable(program, last)) {
        None
    } else {
        Some(last)
    }
}

// 4: a bit that should be zero is set.
pub fn bad_bits(program: &[u8]) -> Option<Place>
    ensures { result ≡ lowest (bad_bits_at (words program.now)) (length (words program.now)) }
{
    spots(program)
        .position(|x| zero::bad_bits(x.syllable))
        .map(Place)
}

// Control outside cluster 0.
fn is_stray_control(x: Spot) -> bool
    ensures { result ≡ (is_control x.syllable && not (eqb (cluster x) 0)) }
{
    if cluster(x) == 0 {
        return false;
    }
    is_control(x.syllable)
}

// A copy from its own cluster, or from one not below C.
fn is_bad_copy(clusters: usize, x: Spot) -> bool
    ensures { result ≡ (is_copy (opcode x.syllable) && (eqb (source x.syllable) (cluster x) || leb clusters (source x.syllable))) }
{
    if is_copy(opcode(x.syllable)) {
        let from = source(x.syllable) as usize;
        return (from == cluster(x)) | (clusters <= from);
    }
    false
}

// 5, of a spot.
fn is_bad_cluster(clusters: usize, x: Spot) -> bool
    ensures { result ≡ bad_cluster clusters x }
{
    if x.first & !opens(x.syllable) {
        return true;
    }
    if clusters < x.opened {
        return true;
    }
    if is_stray_control(x) {
        return true;
    }
    is_bad_copy(clusters, x)
}

// 5: clusters that do not open as they should, control or a copy where it may not stand.
pub fn bad_cluster(clusters: usize, program: &[u8]) -> Option<Place>
    ensures { result ≡ lowest (bad_cluster_at clusters (words program.now)) (length (words program.now)) }
{
    spots(program)
        .position(|x| is_bad_cluster(clusters, x))
        .map(Place)
}
