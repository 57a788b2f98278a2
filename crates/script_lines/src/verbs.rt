//! The first words of commands.
ghost use Rattle.std.specs.Prelude.{◌≡◌};
ghost use Rattle.script_lines.specs.Verbs.{verb_among, verb_of, word_of};

/// What a line asks for, apart from its further words.
#[derive(Clone, Copy, Debug, PartialEq, Eq)]
pub enum Verb {
    Tech,
    Load,
    New,
    Edit,
    Paint,
    Erase,
    Place,
    Array,
    Move,
    Delete,
    Label,
    Unlabel,
    Undo,
    Redo,
    Save,
    Nodes,
    Squares,
    Drc,
    Cif,
    Cifstat,
    Extract,
    Flat,
    Sim,
    Vectors,
    Grade,
    Generate,
    Ext2sim,
    Simrun,
}

/// All of them.
pub const VERBS: [Verb; 28] = [
    Verb::Tech,
    Verb::Load,
    Verb::New,
    Verb::Edit,
    Verb::Paint,
    Verb::Erase,
    Verb::Place,
    Verb::Array,
    Verb::Move,
    Verb::Delete,
    Verb::Label,
    Verb::Unlabel,
    Verb::Undo,
    Verb::Redo,
    Verb::Save,
    Verb::Nodes,
    Verb::Squares,
    Verb::Drc,
    Verb::Cif,
    Verb::Cifstat,
    Verb::Extract,
    Verb::Flat,
    Verb::Sim,
    Verb::Vectors,
    Verb::Grade,
    Verb::Generate,
    Verb::Ext2sim,
    Verb::Simrun,
];

// The one among these commands that has the first word.
fn verb_among(verbs: &[Verb], word: &[u8]) -> Option<Verb>
    ensures { result ≡ verb_among verbs.now word.now }
{
    verbs.iter().copied().find(|verb| verb.word() == word)
}

impl Verb {
    /// The first word of the lines of the command.
    pub fn word(self) -> &'static [u8]
        ensures { result.now ≡ word_of self }
    {
        match self {
            Verb::Tech => b"tech",
            Verb::Load => b"load",
            Verb::New => b"new",
            Verb::Edit => b"edit",
            Verb::Paint => b"paint",
            Verb::Erase => b"erase",
            Verb::Place => b"place",
            Verb::Array => b"array",
            Verb::Move => b"move",
            Verb::Delete => b"delete",
            Verb::Label => b"label",
            Verb::Unlabel => b"unlabel",
            Verb::Undo => b"undo",
            Verb::Redo => b"redo",
            Verb::Save => b"save",
            Verb::Nodes => b"nodes",
            Verb::Squares => b"squares",
            Verb::Drc => b"drc",
            Verb::Cif => b"cif",
            Verb::Cifstat => b"cifstat",
            Verb::Extract => b"extract",
            Verb::Flat => b"flat",
            Verb::Sim => b"sim",
            Verb::Vectors => b"vectors",
            Verb::Grade => b"grade",
            Verb::Generate => b"generate",
            Verb::Ext2sim => b"ext2sim",
            Verb::Simrun => b"simrun",
        }
    }

    /// The command of this first word, if there is one.
    pub fn of(word: &[u8]) -> Option<Verb>
        ensures { result ≡ verb_of word.now }
    {
        verb_among(&VERBS, word)
    }
}
