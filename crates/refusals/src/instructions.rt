// Refusals 6 and 7: tests of each instruction, the lowest place first.
ghost use Rattle.std.specs.Prelude.{◌≡◌, true, false, not, ◌||◌, ◌&&◌, List, ◌∷◌, map, ℕ, ◌+◌, ◌≤◌, ◌<◌, eqb, ltb, length, get_or, set};
ghost use Rattle.word.specs.Choice.{pick, bit};
ghost use Rattle.word.specs.Bytes.{words};
ghost use Rattle.word.specs.Lists.{any_below, repeats};
ghost use Rattle.isa.specs.Lowest.{lowest};
ghost use Rattle.isa.specs.Program.{spots, spot_at, operation};
ghost use Rattle.isa.specs.Touch.{destinations};
ghost use Rattle.isa.specs.declared.Spot.{Spot};
ghost use Rattle.refusals.specs.Broken.{overfull, too_wide, too_wide_at, two_writes_at};

use isa::control::is_control;
use isa::decode::destinations;
use isa::stretch::cluster;
use isa::syllable::{is_alu, is_copy, is_mem, is_mul, opcode, source};
use isa::walk::spots;
use isa::{Place, Spot, Table};

// Takes one of what cluster c has left, and says whether nothing was left. Only the table's clusters have anything.
fn take(left: &mut [u8; 4], clusters: usize, c: usize) -> bool
    requires { clusters ≤ 4 }
    ensures { (more : ℕ → ℕ) → any_below (λ k. ltb (get_or left.old k 0) (bit (eqb c k) + more k)) clusters
        ≡ result || any_below (λ k. ltb (get_or left.new k 0) (more k)) clusters }
{
    if clusters <= c {
        return false;
    }
    if left[c] == 0 {
        return true;
    }
    left[c] -= 1;
    false
}

// A copy is taken from both its clusters, once where they are one.
fn take_copy(left: &mut [u8; 4], clusters: usize, c: usize, from: usize) -> bool
    requires { clusters ≤ 4 }
    ensures { (more : ℕ → ℕ) → any_below (λ k. ltb (get_or left.old k 0) (bit (eqb c k || eqb from k) + more k)) clusters
        ≡ result || any_below (λ k. ltb (get_or left.new k 0) (more k)) clusters }
{
    let own = take(left, clusters, c);
    if from == c {
        return own;
    }
    own | take(left, clusters, from)
}

// Takes a syllable from what its cluster has left, of all and of its class, and says whether something was not there to take.
fn overfills(left: &mut Table, x: Spot) -> bool
    requires { left.old.clusters ≤ 4 }
    ensures clusters { left.new.clusters ≡ left.old.clusters }
    ensures is { (xs : List Spot) → any_below (overfull left.old (x ∷ xs)) left.old.clusters
        ≡ result || any_below (overfull left.new xs) left.old.clusters }
{
    let clusters = left.clusters;
    let c = cluster(x);
    let o = opcode(x.syllable);
    if take(&mut left.width, clusters, c) {
        return true;
    }
    if is_alu(o) {
        return take(&mut left.alu, clusters, c);
    }
    if is_mul(o) {
        return take(&mut left.mul, clusters, c);
    }
    if is_mem(o) {
        return take(&mut left.mem, clusters, c);
    }
    if is_copy(o) {
        return take_copy(&mut left.copy, clusters, c, source(x.syllable) as usize);
    }
    false
}

// What is left is all of the table's counts. The delays are no part of it, and stay uncopied.
fn refill(left: &mut Table, table: Table)
    ensures { left.new ≡ record {
      clusters = left.old.clusters;
      width = table.width;
      alu = table.alu;
      mul = table.mul;
      mem = table.mem;
      copy = table.copy;
      delays = left.old.delays;
    } }
{
    let Table {
        width,
        alu,
        mul,
        mem,
        copy,
        ..
    } = table;
    left.width = width;
    left.alu = alu;
    left.mul = mul;
    left.mem = mem;
    left.copy = copy;
}

// 6: more in a cluster, or more control, than one instruction may have. With each instruction that begins, the counts begin anew.
pub fn too_wide(table: Table, program: &[u8]) -> Option<Place>
    requires { table.clusters ≤ 4 }
    ensures { result ≡ lowest (too_wide_at table (words program.now)) (length (words program.now)) }
{
    let mut at = Place(0);
    let mut left = table;
    let mut controlled = false;
    for (i, x) in spots(program).enumerate() {
        if x.first {
            at = Place(i);
            refill(&mut left, table);
            controlled = false;
        }
        if overfills(&mut left, x) {
            return Some(at);
        }
        if is_control(x.syllable) {
            if controlled {
                return Some(at);
            }
            controlled = true;
        }
    }
    None
}

// Stamps register r, unless it is 0, and says whether it had this stamp.
fn stamp(stamps: &mut [usize; 288], r: u32, n: usize) -> bool
    requires { r < 288 }
    ensures was { result ≡ (not (eqb r 0) && eqb (get_or stamps.old r 0) n) }
    ensures is { stamps.new ≡ pick (eqb r 0) stamps.old (set stamps.old r n) }
{
    if r == 0 {
        return false;
    }
    let was = stamps[r as usize] == n;
    stamps[r as usize] = n;
    was
}

// 7: a register, not register 0, twice as destination; none opens a fifth cluster. An instruction's stamp is above all that were used before it,
// so that nothing has to be cleared.
pub fn two_writes(program: &[u8]) -> Option<Place>
    requires { (j : ℕ) → j < length (words program.now) → (spot_at (words program.now) j).opened ≤ 4 }
    ensures { result ≡ lowest (two_writes_at (words program.now)) (length (words program.now)) }
{
    let mut stamps = [0; 288];
    let mut at = Place(0);
    for (i, x) in spots(program).enumerate() {
        if x.first {
            at = Place(i);
        }
        let d = destinations(cluster(x) as u32, x.syllable);
        if stamp(&mut stamps, d.t, at.0 + 1) {
            return Some(at);
        }
        if stamp(&mut stamps, d.carry, at.0 + 1) {
            return Some(at);
        }
    }
    None
}
