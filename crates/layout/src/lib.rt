// Where blocks stand: the image sizes, sectors, trailers and access groups.
// A block address and a sector number are different types, and nothing but this crate makes one from the other.
#![tactic(auto)]

ghost use Rattle.std.specs.Prelude.{◌≡◌, not, ◌<◌, eqb};
ghost use Rattle.layout.specs.Layout.{sectors_of, blocks_of, has_sector, has_block, sector_of, trailer_of, is_trailer, group_at, group_of, group_number};

// A block address.
#[derive(Clone, Copy, PartialEq, Eq)]
pub struct Block(pub u8);

// A sector number.
#[derive(Clone, Copy, PartialEq, Eq)]
pub struct Sector(pub u8);

// An access group of a sector: its data blocks in three parts, and its trailer.
#[derive(Clone, Copy, PartialEq, Eq)]
pub enum Group {
    First,
    Second,
    Third,
    Trailer,
}

// The sectors of an image of so many bytes; none where no card has that size.
pub fn sectors_of(bytes: usize) -> usize
    ensures { result ≡ sectors_of bytes }
{
    if bytes == 1024 {
        return 16;
    }
    if bytes == 4096 {
        return 40;
    }
    0
}

// Is this the size of a card's image?
fn is_card(bytes: usize) -> bool
    ensures { result ≡ not (eqb (sectors_of bytes) 0) }
{
    (bytes == 1024) | (bytes == 4096)
}

// The blocks of an image of so many bytes.
pub fn blocks_of(bytes: usize) -> usize
    ensures { result ≡ blocks_of bytes }
{
    if is_card(bytes) {
        return bytes / 16;
    }
    0
}

pub fn has_sector(bytes: usize, s: Sector) -> bool
    ensures { result ≡ has_sector bytes s }
{
    let n = s.0;
    (n as usize) < sectors_of(bytes)
}

pub fn has_block(bytes: usize, b: Block) -> bool
    ensures { result ≡ has_block bytes b }
{
    let n = b.0;
    (n as usize) < blocks_of(bytes)
}

pub fn sector_of(b: Block) -> Sector
    ensures { result ≡ sector_of b }
{
    let n = b.0;
    if n < 128 {
        Sector(n / 4)
    } else {
        Sector(32 + (n - 128) / 16)
    }
}

// The last block of a sector; block 255 for a sector that no card has.
pub fn trailer_of(s: Sector) -> Block
    ensures { result ≡ trailer_of s }
{
    let n = s.0;
    if n < 32 {
        return Block(4 * n + 3);
    }
    if n < 40 {
        return Block(128 + 16 * (n - 32) + 15);
    }
    Block(255)
}

#[tactic(auto, unfolding(crate::specs::Layout::is_trailer))]
pub fn is_trailer(b: Block) -> bool
    ensures { result ≡ is_trailer b }
{
    trailer_of(sector_of(b)) == b
}

// The group of a place in a sector whose data groups have n blocks each.
fn group_at(n: u8, place: u8) -> Group
    requires { n < 80 }
    ensures { result ≡ group_at n place }
{
    if place < n {
        return Group::First;
    }
    if place < 2 * n {
        return Group::Second;
    }
    if place < 3 * n {
        return Group::Third;
    }
    Group::Trailer
}

pub fn group_of(b: Block) -> Group
    ensures { result ≡ group_of b }
{
    let n = b.0;
    if n < 128 {
        group_at(1, n % 4)
    } else {
        group_at(5, n % 16)
    }
}

// A group's number, 0 to 3.
pub fn group_number(g: Group) -> u8
    ensures { result ≡ group_number g }
{
    g as u8
}
