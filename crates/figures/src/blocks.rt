// Figures of the crate layout. A line: block, sector, the sector's first block, its trailer, the block's group.
use layout::Block;

// Does a sector start at a block: does the block stand in it, and the one before in another?
fn starts(first: u8, sector: u8) -> bool {
    let s = layout::sector_of(Block(first));
    if first == 0 {
        return s.0 == sector;
    }
    let before = layout::sector_of(Block(first - 1));
    (s.0 == sector) & (before.0 != sector)
}

pub(crate) fn agrees(f: [u8; 22]) -> bool {
    let block = Block(f[0]);
    let sector = f[1];
    let group = f[4];
    let s = layout::sector_of(block);
    let t = layout::trailer_of(s);
    let in_sector = (s.0 == sector) & starts(f[2], sector) & (t.0 == f[3]);
    let in_group = layout::group_number(layout::group_of(block)) == group;
    let is_last = layout::is_trailer(block) == (group == 3);
    in_sector & in_group & is_last
}
