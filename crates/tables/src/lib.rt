// The delay table: whether its bytes keep the limits, and what they say.
#![tactic(auto)]

ghost use Rattle.std.specs.Prelude.{◌≡◌, ltb, get_or};
ghost use Rattle.word.specs.Choice.{pick};
ghost use Rattle.word.specs.Lists.{any_below};
ghost use Rattle.tables.specs.Table.{clusters_of, unit, delay, outside, bad_units, bad_table, column, table_of};

use isa::{Delays, Table};

// Byte i, 0 past the end.
fn byte_at(bytes: &[u8], i: usize) -> u8
    ensures { result ≡ get_or bytes.now i 0 }
{
    bytes.get(i).copied().unwrap_or(0)
}

// The j-th number of cluster k; of the delays where k is the count of clusters.
fn unit(bytes: &[u8], j: u8, k: u8) -> u8
    ensures { result ≡ unit bytes.now j k }
{
    byte_at(bytes, 1 + 5 * k as usize + j as usize)
}

// Whether that number is outside least..most.
fn outside(bytes: &[u8], least: u8, most: u8, j: u8, k: u8) -> bool
    ensures { result ≡ outside bytes.now least most (unit bytes.now j k) }
{
    let x = unit(bytes, j, k);
    x < least || most < x
}

// Whether a number of cluster k breaks its limit.
fn bad_units(bytes: &[u8], k: u8) -> bool
    ensures { result ≡ bad_units bytes.now k }
{
    outside(bytes, 1, 8, 0, k)
        || outside(bytes, 0, 8, 1, k)
        || outside(bytes, 0, 4, 2, k)
        || outside(bytes, 0, 4, 3, k)
        || outside(bytes, 0, 4, 4, k)
}

fn any_bad_units(bytes: &[u8], clusters: u8) -> bool
    ensures { result ≡ any_below (bad_units bytes.now) clusters }
{
    (0..clusters).any(|k| bad_units(bytes, k))
}

// Whether the j-th delay breaks its limit.
fn bad_delay(bytes: &[u8], j: u8) -> bool
    ensures { result ≡ outside bytes.now 1 8 (delay bytes.now j) }
{
    outside(bytes, 1, 8, j, byte_at(bytes, 0))
}

fn any_bad_delay(bytes: &[u8]) -> bool
    ensures { result ≡ any_below (λ j. outside bytes.now 1 8 (delay bytes.now j)) 5 }
{
    (0..5).any(|j| bad_delay(bytes, j))
}

// Refusal 1: the table breaks a limit.
#[tactic(auto, unfolding(crate::specs::Table::bad_table))]
pub fn breaks(bytes: &[u8]) -> bool
    ensures { result ≡ bad_table bytes.now }
{
    let clusters = byte_at(bytes, 0);
    (clusters < 1 || 4 < clusters)
        || bytes.len() != 6 + 5 * clusters as usize
        || any_bad_units(bytes, clusters)
        || any_bad_delay(bytes)
}

// The j-th delay.
fn delay(bytes: &[u8], j: u8) -> u64
    ensures { result ≡ delay bytes.now j }
{
    unit(bytes, j, byte_at(bytes, 0)) as u64
}

// That number, 0 from the count of clusters up.
fn count(bytes: &[u8], j: u8, k: u8) -> u8
    ensures { result ≡ pick (ltb k (clusters_of bytes.now)) (unit bytes.now j k) 0 }
{
    if k < byte_at(bytes, 0) {
        unit(bytes, j, k)
    } else {
        0
    }
}

// The j-th numbers of all clusters.
fn column(bytes: &[u8], j: u8) -> [u8; 4]
    ensures { result ≡ column bytes.now j }
{
    [
        count(bytes, j, 0),
        count(bytes, j, 1),
        count(bytes, j, 2),
        count(bytes, j, 3),
    ]
}

#[tactic(auto, unfolding(crate::specs::Table::table_of))]
fn delays(bytes: &[u8]) -> Delays
    ensures { result ≡ (table_of bytes.now).delays }
{
    Delays {
        alu: delay(bytes, 0),
        cmpb: delay(bytes, 1),
        mul: delay(bytes, 2),
        load: delay(bytes, 3),
        copy: delay(bytes, 4),
    }
}

// What the bytes say, whether or not they keep the limits.
#[tactic(auto, unfolding(crate::specs::Table::table_of))]
pub fn read(bytes: &[u8]) -> Table
    ensures { result ≡ table_of bytes.now }
{
    Table {
        clusters: byte_at(bytes, 0) as usize,
        width: column(bytes, 0),
        alu: column(bytes, 1),
        mul: column(bytes, 2),
        mem: column(bytes, 3),
        copy: column(bytes, 4),
        delays: delays(bytes),
    }
}
