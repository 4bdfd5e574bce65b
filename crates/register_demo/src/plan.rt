//! The blocks of a made-up register, and the uploads that bring them.
ghost use Rattle.std.specs.Prelude.{◌≡◌, ◌≤◌};
ghost use Rattle.register_demo.specs.Requests.{request_count};
ghost use Rattle.register_demo.specs.Plan.{block_count, first_item, last_item, turn, turns, upload_number};

/// Which items of a block an upload brings.
#[derive(Clone, Copy, Debug, PartialEq, Eq)]
pub enum Group {
    /// The records of the block.
    Records,
    /// The relationships that start at these records.
    Relationships,
}

/// The uploads of a group for a register of `n` records, one for each block, after `count` other requests.
#[derive(Clone, Copy)]
pub struct Uploads {
    pub group: Group,
    pub n: u32,
    pub count: u32,
}

/// How many blocks a register of this many records has.
pub fn block_count(n: u32) -> u32
    requires { n ≤ 100_000 }
    ensures value { result ≡ block_count n }
    ensures most { result ≤ 1_000 }
{
    (n + 99) / 100
}

/// The number of the first item of a block.
pub fn first_item(group: Group, block: u32) -> u32
    requires least { 1 ≤ block }
    requires most { block ≤ 1_000 }
    ensures value { result ≡ first_item group block }
{
    let first = 100 * (block - 1) + 1;
    match group {
        Group::Records => first,
        Group::Relationships => first.max(2),
    }
}

/// The number of the last item of a block.
pub fn last_item(n: u32, block: u32) -> u32
    requires { block ≤ 1_000 }
    ensures value { result ≡ last_item n block }
{
    (100 * block).min(n)
}

// How many blocks the issuer of a block has in all.
fn turns(n: u32, block: u32) -> u32
    requires { n ≤ 100_000 }
    ensures value { result ≡ turns n block }
    ensures most { result ≤ 500 }
{
    let blocks = block_count(n);
    if block % 2 == 1 {
        (blocks + 1) / 2
    } else {
        blocks / 2
    }
}

/// The number of the upload of a block among those of its issuer.
pub fn upload_number(group: Group, n: u32, block: u32) -> u32
    requires records { n ≤ 100_000 }
    requires least { 1 ≤ block }
    requires most { block ≤ 1_000 }
    ensures value { result ≡ upload_number group n block }
    ensures some { 1 ≤ result }
    ensures most { result ≤ 1_000 }
{
    let turn = (block + 1) / 2;
    match group {
        Group::Records => turn,
        Group::Relationships => turns(n, block) + turn,
    }
}

/// How many requests make a register of this many records.
pub fn request_count(n: u32) -> u32
    requires { n ≤ 100_000 }
    ensures { result ≡ request_count n }
{
    3 * block_count(n) + 8
}
