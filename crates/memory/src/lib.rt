// Loads and stores of an instruction: the fault of an access, what is read, and the stores, which wait until everything is read.
#![tactic(auto)]

ghost use Rattle.std.specs.Prelude.{◌≡◌, ◌+◌, ◌≤◌, length};
ghost use Rattle.std.specs.List.{list_any};
ghost use Rattle.word.specs.Bytes.{number_at};
ghost use Rattle.ops.specs.Value.{loaded};
ghost use Rattle.vliw.specs.Machine.{stores as stored};
ghost use Rattle.memory.specs.Memory.{size_of, access, store, share, any_share};
ghost use Rattle.memory.specs.Held.{Width, Within, Stores};

use ops::loaded;
use vliw::Fault;
use word::number::{byte_at, half_at, put_byte, put_half, put_word, word_at};

// A store of an instruction: the low `size` bytes of a value, to be put at `at`.
#[derive(Clone, Copy, Default)]
pub struct Store {
    pub at: u32,
    pub size: u32,
    pub value: u32,
}

// How many bytes the operation accesses.
pub fn size(opcode: u32) -> u32
    ensures is { result ≡ size_of opcode }
    ensures width { Width result }
{
    match opcode {
        52 | 57 => 4,
        53 | 54 | 58 => 2,
        _ => 1,
    }
}

// Where an access of `size` bytes goes. The sum is not reduced.
#[tactic(auto, using(crate::proofs::Accesses::mask_width))]
pub fn access_at(length: usize, size: u32, address: u32) -> Result<u32, Fault>
    requires { Width size }
    ensures { result ≡ access length size address }
{
    let end = size as usize + address as usize;
    if address & (size - 1) != 0 {
        Err(Fault::Misaligned)
    } else if length < end {
        Err(Fault::OutOfBounds)
    } else {
        Ok(address)
    }
}

// What the load `opcode` loads. Each size widens for itself, so that the compiled code tests the opcode once.
pub fn load(memory: &[u8], opcode: u32, address: u32) -> u32
    requires { size_of opcode + address ≤ length memory.now }
    ensures { result ≡ loaded opcode (number_at (size_of opcode) address memory.now) }
{
    let i = address as usize;
    match size(opcode) {
        4 => loaded(opcode, word_at(memory, i)),
        2 => loaded(opcode, half_at(memory, i)),
        _ => loaded(opcode, byte_at(memory, i)),
    }
}

impl Store {
    fn put(self, memory: &mut [u8])
        requires { Within self.at self.size (length memory.old) }
        ensures { memory.new ≡ store self memory.old }
    {
        let i = self.at as usize;
        match self.size {
            4 => put_word(memory, i, self.value),
            2 => put_half(memory, i, self.value),
            _ => put_byte(memory, i, self.value),
        }
    }

    // Whether the two share a byte. Values do not matter.
    fn shares(self, other: Store) -> bool
        ensures { result ≡ share self other }
    {
        let (a, b) = (self.at as u64, other.at as u64);
        a < b + other.size as u64 && b < a + self.size as u64
    }

    // Whether it shares a byte with one of these.
    fn shares_any(self, others: &[Store]) -> bool
        ensures { result ≡ list_any (share self) others.now }
    {
        others.iter().any(|s| self.shares(*s))
    }
}

// The stores of an instruction, in order.
pub fn store_all(memory: &mut [u8], stores: &[Store])
    requires { Stores stores.now (length memory.old) }
    ensures { memory.new ≡ stored store stores.now memory.old }
{
    for s in stores {
        s.put(memory);
    }
}

// Whether two stores of the instruction share a byte.
#[tactic(auto, using(crate::proofs::Accesses::any_is))]
pub fn shared(stores: &[Store]) -> bool
    ensures { result ≡ any_share stores.now }
{
    let mut rest = stores;
    while let Some((first, others)) = rest.split_first() {
        if first.shares_any(others) {
            return true;
        }
        rest = others;
    }
    false
}
