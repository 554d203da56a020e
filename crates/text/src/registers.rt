// The registers of an image, a line for each that is not zero.
ghost use Rattle.std.specs.Prelude.{◌≡◌, ◌+◌, ◌≤◌, ◌<◌, ◌++◌};
ghost use Rattle.arrayvec.specs.ArrayVec.{array_vec_len};
ghost use Rattle.vliw.specs.Cell.{landed};
ghost use Rattle.machine.specs.Image.{cell_in};
ghost use Rattle.text.specs.Rows.{index_of, register_row, cluster_rows, register_rows};

use crate::Shown;
use crate::rows::push_fields;
use machine::image::offset;
use word::number::word_at;

// The value of register `r` of all 288 once everything has landed.
fn landed_at(image: &[u8; 2888], r: usize) -> u32
    requires { r < 288 }
    ensures { result ≡ landed (cell_in image.now r) }
{
    let at = offset(r);
    if image[at + 9] == 0 {
        word_at(image, at)
    } else {
        word_at(image, at + 4)
    }
}

// Where register `r` of cluster `c` stands among all.
fn index(c: usize, r: usize) -> usize
    requires { (c < 4) × (r < 72) }
    ensures { (result ≡ index_of c r) × (result < 288) }
{
    if r < 64 {
        c * 64 + r
    } else {
        256 + (c * 8 + (r - 64))
    }
}

// The line of register `r` of cluster `c`.
#[tactic(auto, using(crate::proofs::Puts::register_laws))]
fn put_register(out: &mut Shown, image: &[u8; 2888], c: usize, r: usize)
    requires room { array_vec_len out.old + 15 ≤ 4341 }
    requires register { (c < 4) × (r < 72) }
    ensures is { out.new.items ≡ out.old.items ++ register_row c r (landed (cell_in image.now (index_of c r))) }
    ensures fits { array_vec_len out.new ≤ array_vec_len out.old + 15 }
{
    let v = landed_at(image, index(c, r));
    if v != 0 {
        push_fields(out, c as u64, 2, r as u64, v as u64);
    }
}

// The lines of cluster `c`.
#[tactic(auto, using(crate::proofs::Puts::each_laws), unfolding(crate::specs::Rows::cluster_rows))]
fn put_cluster(out: &mut Shown, image: &[u8; 2888], c: usize)
    requires room { array_vec_len out.old + 1080 ≤ 4341 }
    requires cluster { c < 4 }
    ensures is { out.new.items ≡ out.old.items ++ cluster_rows image.now c }
    ensures fits { array_vec_len out.new ≤ array_vec_len out.old + 1080 }
{
    for r in 0..72 {
        put_register(out, image, c, r);
    }
}

// The lines of all clusters.
#[tactic(auto, using(crate::proofs::Puts::each_laws), unfolding(crate::specs::Rows::register_rows))]
pub fn put_registers(out: &mut Shown, image: &[u8; 2888])
    requires { array_vec_len out.old + 4320 ≤ 4341 }
    ensures is { out.new.items ≡ out.old.items ++ register_rows image.now }
    ensures fits { array_vec_len out.new ≤ array_vec_len out.old + 4320 }
{
    for c in 0..4 {
        put_cluster(out, image, c);
    }
}
