use hw_expr::Net;

/// The sizes of a cache: how many bits the index of a line has, 1 to 10, and how many the place of a word in its line, 1 to 4.
#[derive(Clone, Copy, Debug, PartialEq, Eq)]
pub struct Sizes {
    pub index: u32,
    pub place: u32,
}

/// What the registers hold.
#[derive(Clone, Copy, Debug)]
pub struct Held {
    /// The pc that is looked up, of 32 bits.
    pub pc: Net,
    /// How many tags are cleared, of a bit more than an index.
    pub walk: Net,
    /// A command is given, its response is owed, and it will be dropped.
    pub given: Net,
    pub owed: Net,
    pub dropped: Net,
    /// The line that is read, the place of the word that is, and whether a word was an error.
    pub line: Net,
    pub place: Net,
    pub bad: Net,
    /// The pc waits for that line.
    pub wanted: Net,
    /// Its word is there as it came, with 32 bits, and whether it was an error.
    pub captured: Net,
    pub captured_word: Net,
    pub captured_error: Net,
    /// An item is offered, with a pc and a word of 32 bits each, and whether it is an error.
    pub full: Net,
    pub out_pc: Net,
    pub out_word: Net,
    pub out_error: Net,
}

/// What comes from the pipeline and from the instruction bus: pcs and the word have 32 bits, the others one.
#[derive(Clone, Copy, Debug)]
pub struct Coming {
    pub take: Net,
    pub redirect: Net,
    pub redirect_pc: Net,
    pub fence: Net,
    pub ready: Net,
    pub answered: Net,
    pub failed: Net,
    pub payload: Net,
}

/// What is read in a cycle: the registers, what comes, the tag and the word under the pc that is looked up, and the pc behind its item.
#[derive(Clone, Copy, Debug)]
pub struct Cycle {
    pub held: Held,
    pub coming: Coming,
    pub tag: Net,
    pub cell: Net,
    pub guess: Net,
}

/// What the search for the pc gives: one bit each, and the word of 32.
#[derive(Clone, Copy, Debug)]
pub struct Search {
    /// The walk still clears tags.
    pub walking: Net,
    /// A fill begins.
    pub misses: Net,
    /// There is room for an item, and it moves there.
    pub room: Net,
    pub moves: Net,
    /// The item that is looked up.
    pub word: Net,
    pub error: Net,
}

/// What becomes of the fill, one bit each.
#[derive(Clone, Copy, Debug)]
pub struct Fill {
    /// The response comes, and its word is kept.
    pub response: Net,
    pub keeps: Net,
    /// The fill goes on with the next word, or ends.
    pub goes_on: Net,
    pub ends: Net,
    /// A word of it was an error.
    pub flawed: Net,
    /// The word of the pc that is looked up comes.
    pub captures: Net,
}

/// Nets of four registers that follow each other.
#[derive(Clone, Copy, Debug)]
pub struct Four {
    pub first: Net,
    pub second: Net,
    pub third: Net,
    pub fourth: Net,
}

/// The write of an array: where `enable` is 1, the cell `addr` takes `value`.
#[derive(Clone, Copy, Debug)]
pub struct Write {
    pub enable: Net,
    pub addr: Net,
    pub value: Net,
}

/// What the registers and arrays hold next.
#[derive(Clone, Copy, Debug)]
pub struct Nexts {
    /// Of pc, walk, given and owed.
    pub front: Four,
    /// Of dropped, line, place and bad.
    pub reading: Four,
    /// Of wanted, captured, and the captured word and error.
    pub caught: Four,
    /// Of full, and the pc, word and error of the item.
    pub item: Four,
    /// The writes of the tags and of the words.
    pub tag: Write,
    pub cell: Write,
    /// The word that is looked up, and the address of the command, of 32 bits each.
    pub word: Net,
    pub address: Net,
}
