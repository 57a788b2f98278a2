//! The network of a sim file: its nodes with all their names, and a switch for each of its transistors.
//!
//! Names are met in the order of capacitances, transistors and aliases, and each is kept once, under its number (`names`). The aliases
//! join numbers into classes, and the label of a class is the number of its node (`nodes`). Each transistor then has its switch
//! (`switches`), and power and ground become inputs (`networks`). All of it takes time near-linear in the bytes of the file's names.
//!
//! # How the proof goes
//!
//! The names that are kept are those that are met, once each, and a name with a lesser number was met before one with a greater was
//! (`GatherLaws`). So numbers and names stand for each other (`NumberLaws`), and a chain of aliases between names is a chain of the pairs
//! of numbers that were joined, and back (`NodeLaws`): two names have one label exactly where aliases lead from the one to the other.
//! Labels are in the order of the least number of each class, hence in the order in which a name of each class was met first. A name of
//! each class gives as many names of different nodes as there are labels, and names of different nodes have different labels, so they are
//! no more (`CountLaws`). The switches are those of the transistors one for one (`SwitchLaws`), and marking the node of a name changes
//! nothing but whether that node is an input (`InputLaws`). That what is read has the letters of switches follows from what a line says
//! (`LetterLaws`).
#![tactic(auto)]

mod adding;
mod laws;
mod names;
mod networks;
mod nodes;
mod switches;

pub use laws::read_records_have_letters;
pub use networks::net_of;
