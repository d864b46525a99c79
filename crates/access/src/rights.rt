// Which key may do what, by a group's bits C1 C2 C3.
ghost use Rattle.std.specs.Prelude.{◌≡◌};
ghost use Rattle.access.specs.Rights.{data_row, trailer_row, allows_of, keys_for, may_of, writable_of, is_yes, readable_of, mute_of};

// A key letter.
#[derive(Clone, Copy)]
pub enum Letter {
    KeyA,
    KeyB,
}

// The keys that a row of rights names for an operation.
#[derive(Clone, Copy)]
pub enum Keys {
    Never,
    OnlyA,
    OnlyB,
    Either,
}

// Whether key B can be read; no bool, so that a row is four enums and loads as one word.
#[derive(Clone, Copy)]
pub enum Readable {
    No,
    Yes,
}

// The columns of the data table. Transfer and Restore go by Decrement's.
#[derive(Clone, Copy)]
pub enum Operation {
    Read,
    Write,
    Increment,
    Decrement,
}

// A row of the data table: who may read, write, increment, and decrement, transfer or restore.
#[derive(Clone, Copy)]
pub struct DataRow(pub Keys, pub Keys, pub Keys, pub Keys);

// A row of the trailer table: who may write key A, the access bits (with the user byte) and key B, and whether key B can be read.
#[derive(Clone, Copy)]
pub struct TrailerRow(pub Keys, pub Keys, pub Keys, pub Readable);

// The parts of a trailer: key A, bytes 6 to 9, key B.
#[derive(Clone, Copy)]
pub struct Parts {
    pub a: bool,
    pub bits: bool,
    pub b: bool,
}

// Both tables are indexed by C1 C2 C3 as a binary number: 000, 001, 010, 011, 100, 101, 110, 111.
const DATA: [DataRow; 8] = [
    DataRow(Keys::Either, Keys::Either, Keys::Either, Keys::Either),
    DataRow(Keys::Either, Keys::Never, Keys::Never, Keys::Either),
    DataRow(Keys::Either, Keys::Never, Keys::Never, Keys::Never),
    DataRow(Keys::OnlyB, Keys::OnlyB, Keys::Never, Keys::Never),
    DataRow(Keys::Either, Keys::OnlyB, Keys::Never, Keys::Never),
    DataRow(Keys::OnlyB, Keys::Never, Keys::Never, Keys::Never),
    DataRow(Keys::Either, Keys::OnlyB, Keys::OnlyB, Keys::Either),
    DataRow(Keys::Never, Keys::Never, Keys::Never, Keys::Never),
];

const TRAILER: [TrailerRow; 8] = [
    TrailerRow(Keys::OnlyA, Keys::Never, Keys::OnlyA, Readable::Yes),
    TrailerRow(Keys::OnlyA, Keys::OnlyA, Keys::OnlyA, Readable::Yes),
    TrailerRow(Keys::Never, Keys::Never, Keys::Never, Readable::Yes),
    TrailerRow(Keys::OnlyB, Keys::OnlyB, Keys::OnlyB, Readable::No),
    TrailerRow(Keys::OnlyB, Keys::Never, Keys::OnlyB, Readable::No),
    TrailerRow(Keys::Never, Keys::OnlyB, Keys::Never, Readable::No),
    TrailerRow(Keys::Never, Keys::Never, Keys::Never, Readable::No),
    TrailerRow(Keys::Never, Keys::Never, Keys::Never, Readable::No),
];

// The row of the last three bits of a number. A generic function for both tables would be no shorter than either line.
pub fn data_row(bits: u8) -> DataRow
    ensures { result ≡ data_row bits }
{
    DATA[(bits % 8) as usize]
}

pub fn trailer_row(bits: u8) -> TrailerRow
    ensures { result ≡ trailer_row bits }
{
    TRAILER[(bits % 8) as usize]
}

pub fn allows(k: Keys, l: Letter) -> bool
    ensures { result ≡ allows_of k l }
{
    match l {
        Letter::KeyA => match k {
            Keys::Never => false,
            Keys::OnlyA => true,
            Keys::OnlyB => false,
            Keys::Either => true,
        },
        Letter::KeyB => match k {
            Keys::Never => false,
            Keys::OnlyA => false,
            Keys::OnlyB => true,
            Keys::Either => true,
        },
    }
}

fn keys_for(r: DataRow, o: Operation) -> Keys
    ensures { result ≡ keys_for r o }
{
    let read = r.0;
    let write = r.1;
    let increment = r.2;
    let decrement = r.3;
    match o {
        Operation::Read => read,
        Operation::Write => write,
        Operation::Increment => increment,
        Operation::Decrement => decrement,
    }
}

// May this key do this to a data block whose group has these bits?
pub fn may(l: Letter, o: Operation, bits: u8) -> bool
    ensures { result ≡ may_of l o bits }
{
    allows(keys_for(data_row(bits), o), l)
}

// The parts of a trailer with these bits that this key may write.
pub fn writable(l: Letter, bits: u8) -> Parts
    ensures { result ≡ writable_of l bits }
{
    let row = trailer_row(bits);
    let for_a = row.0;
    let for_bits = row.1;
    let for_b = row.2;
    let a = allows(for_a, l);
    let middle = allows(for_bits, l);
    let b = allows(for_b, l);
    Parts { a, bits: middle, b }
}

fn is_yes(x: Readable) -> bool
    ensures { result ≡ is_yes x }
{
    matches!(x, Readable::Yes)
}

// Can key B be read from a trailer with these bits?
pub fn is_readable(bits: u8) -> bool
    ensures { result ≡ readable_of bits }
{
    let row = trailer_row(bits);
    let readable = row.3;
    is_yes(readable)
}

// Is every memory command barred under this key, the trailer having these bits?
pub fn is_mute(l: Letter, bits: u8) -> bool
    ensures { result ≡ mute_of l bits }
{
    match l {
        Letter::KeyA => false,
        Letter::KeyB => is_readable(bits),
    }
}
