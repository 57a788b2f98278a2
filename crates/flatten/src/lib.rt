//! The flat circuit of a tree of records.
//!
//! `labels` numbers nodes, `nodes` has their names and places, `sums` their sums, and `fets` the transistors; `flat` puts these together.
//!
//! Records are first made plain (`plain_records`), as far as the root reaches them and the limits allow.
//!
//! Which node of the flat circuit each name of each element is of, by the labels of full names.
//!
//! `specs/steps/Labels.antt` has the groups that labels make of names in order, and `specs/steps/Spots.antt` what is looked up once for each record
//! and not for each element: where its nodes' preferred names and the names beside its transistors stand.
//!
//! The nodes of the flat circuit, by their names, and where each lies.
//!
//! What all elements of a tree have of each node of the flat circuit: capacitances, areas and perimeters.
//!
//! The transistors of the flat circuit.
//!
//! # How the proof goes
//!
//! ## Nodes by labels
//!
//! Full names stand in one list, each once and in order, so that a name has one place there and the label of that place
//! (`LabelLaws`). A name stands in the group of its label and in no other, groups are in the order of their first names since labels
//! are numbered by the least place of each, and two names are of one node exactly where they are in one group (`GroupLaws`). Nodes
//! that have the names of the groups are found by any of their names (`NodeLaws`). `SpotLaws` ties numbers to elements: what the tree
//! has at a number, the record there, and the spots of its names. `PlaceLaws` has what stands at the places of lists.
//!
//! ## Names and places of nodes
//!
//! Full names come in order, each with its label. At any time the nodes made so far are those of the labels met so far, each with the
//! group that the names so far make (`ScanLaws`): a label that no node has yet is the next number, since labels are numbered by their
//! least names, and a name whose node stands goes to the end of its group. A new node lies where the first element with its name has
//! it (`PlacedLaws`), and later names change nothing of that.
//!
//! ## Sums
//!
//! Capacitance, area and perimeter in a class are quantities, so each law is stated once for all of them (`AmountLaws`). The sums at any
//! time are those of a list of addends, one for each record that was added: each of these is below 2^100, and there are at most 2^20
//! of nodes and 2^26 of merges, so that all fit (`BoundLaws`). One more addend changes the sums of its node alone (`AddingLaws`). An
//! addend counts for the node whose number is the label of its full name, which is the node that has the name: so what is added for
//! all elements is what they have of the flat node (`TotalLaws`). `EndLaws` shows that first paths of merges have full names.
//!
//! ## Transistors
//!
//! Terminals get the numbers of their nodes and are put in that order; then each one either is of the node of the last joined one, and
//! lengthens it, or of a later node than all before (`JoinLaws`). So the joined ones have each node once, in order, with the sum of its
//! lengths, in whatever order the terminals stood (`OrderLaws`). Numbers of nodes are in the order of their names, and tell nodes
//! apart as names do, which gives the terminals by name (`TerminalLaws`). `FetLaws` goes along the transistors of all elements.
#![tactic(auto)]

mod adding;
mod arrays;
mod circuits;
mod fets;
mod filling;
mod flat;
mod labels;
mod nodes;
mod reached;
mod sides;
mod sinks;
mod spots;
mod sums;

pub use arrays::{circuit_given, flatten_into};
pub use sinks::{AllFets, FetSink, GivenCircuit};
