// The tree: its words, where its nodes lie, its limits, and the ranges of a write. specs/ has the definitions of the whole tree and of
// its calls; the crates above have the code that works on a card.
#![tactic(auto)]

pub mod layout;
pub mod limits;
pub mod numbers;
pub mod path;
pub mod ranges;

ghost use Rattle.std.specs.Prelude.{◌≡◌, ◌≤◌, ◌<◌, ◌+◌, ◌^◌};
ghost use Rattle.tree.specs.Answer.{number_of, node_of, refused_as, answer_in};
ghost use Rattle.tree.specs.Calls.{raise, renew};
ghost use Rattle.tree.specs.declared.Error.TheVariants.{Limit};

pub use layout::{Depth, Entry};
pub use path::Path;

// A node: the root is 1, and node u has the children 2u and 2u + 1.
#[derive(Clone, Copy, PartialEq, Eq)]
pub struct Node(pub u64);

// The number of a block (document 01: block number). Block i is the leaf 2^depth + i.
#[derive(Clone, Copy)]
pub struct BlockIndex(pub u64);

// The number that the root or an inner node gets anew with each write below it (document 01: serial; the tree paper: nonce).
#[repr(C)]
#[derive(Clone, Copy, PartialEq, Eq)]
pub struct Nonce(pub u64);

// The chip's record, which is trusted. The root nonce (document 01: root serial, T) is that of the card; nonces up to the reserved one
// (document 02: reserved serial, H) may have been used, by a write that was lost too.
#[repr(C)]
#[derive(Clone, Copy)]
pub struct Anchor {
    pub key: [u8; 16],
    pub depth: u64,
    pub root: Nonce,
    pub reserved: Nonce,
}

impl Anchor {
    // The depth of its card, where limit 1 has passed it.
    pub fn card_depth(self) -> Depth
        requires { self.depth ≤ 16 }
        ensures { result.levels ≡ self.depth }
    {
        Depth { levels: self.depth }
    }

    // With the nonces of one write or wipe more reserved, of which enough are left.
    pub fn raise(self) -> Anchor
        requires { self.reserved.0 + self.depth < 2 ^ 64 }
        ensures { result ≡ raise self }
    {
        Anchor {
            reserved: Nonce(self.reserved.0 + self.depth),
            ..self
        }
    }

    // Behind that write or wipe: the root nonce is the last one reserved.
    pub fn renew(self) -> Anchor
        requires { self.reserved.0 + self.depth < 2 ^ 64 }
        ensures { result ≡ renew self }
    {
        let raised = self.raise();
        Anchor {
            root: raised.reserved,
            ..raised
        }
    }
}

// Why a call is refused, but for a wrong tag, in the order of the papers' numbers: 1 to 7, 9 and 10.
#[derive(Clone, Copy, PartialEq, Eq)]
pub enum Refusal {
    Depth = 1,
    RootNonce = 2,
    CardLength = 3,
    BlockNumber = 4,
    BlockLength = 5,
    RangeLength = 6,
    NoncesSpent = 7,
    NotAwaited = 9,
    Journal = 10,
}

// Why a call is not accepted: the first node whose tag is wrong, or a limit.
#[derive(Clone, Copy)]
pub enum Error {
    WrongTag(Node),
    Limit(Refusal),
}

impl From<Refusal> for Error {
    ghost from_gives = { λ refusal error. error ≡ Limit refusal };

    fn from(refusal: Refusal) -> Error {
        Error::Limit(refusal)
    }
}

// C and a log have numbers.
impl Error {
    // The papers' number.
    pub fn number(self) -> u64
        ensures { result ≡ number_of (refused_as self) }
    {
        match self {
            Error::WrongTag(_) => 8,
            Error::Limit(refusal) => refusal as u64,
        }
    }

    // The node that it names, 0 where it names none.
    pub fn node(self) -> u64
        ensures { result ≡ node_of (refused_as self) }
    {
        match self {
            Error::WrongTag(node) => node.0,
            Error::Limit(_) => 0,
        }
    }
}

// The number of what a call answers: 0 where it is accepted. A `Result`, which is std's, takes no method or `From` of this crate.
pub fn number(answer: Result<(), Error>) -> u64
    ensures { result ≡ number_of (answer_in answer) }
{
    match answer {
        Ok(()) => 0,
        Err(error) => error.number(),
    }
}

// The node of what a call answers, 0 where it names none, in the same way.
pub fn node_of(answer: Result<(), Error>) -> u64
    ensures { result ≡ node_of (answer_in answer) }
{
    match answer {
        Ok(()) => 0,
        Err(error) => error.node(),
    }
}
