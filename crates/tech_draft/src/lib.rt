//! What each line of a technology's text adds to the technology.
//!
//! A line is read where it stands: its words and the pieces of its lists are found one after another (`parts`), and only what the
//! technology keeps is copied.
//!
//! # How the proof goes
//!
//! What a line makes of a draft, or the first rule that it breaks, is one definition for each kind of line (`specs/Lines.antt` and what
//! it names), whose steps are those of the code. So the readers need hardly a proof of their own. What words may not have is one enum,
//! `WordRule`, and one search tells the first word that breaks such a rule.
//!
//! That a draft is a well-formed technology in the end is proved over these definitions alone. A line that is taken keeps each rule
//! (`Refusals`), and its words name planes, layers and types (`LookupLaws`). Lists that a line leaves alone still fit (`Keeps`). Of the
//! sets of types there is one record of what a line keeps and adds, `IsStep`, with one law that sets stay sound (`Steps`). A line of
//! `types` adds an atom (`AtomSteps`) and one of `contact` the images of a layer (`ContactLines`, `ContactSteps`): both put types at the
//! end that are the last images of one layer (`Growths`). One of `compose` changes one set (`UnionSteps`), and the others add pairs,
//! classes and transistors (`RuleLines`). `SoundLines` puts them together. The set of a contact's image is told at the end: the mark and
//! the set of the residue on its plane (`FinishedDrafts`).
#![tactic(auto)]

mod draft;
mod parts;
mod words;

pub use draft::Draft;
