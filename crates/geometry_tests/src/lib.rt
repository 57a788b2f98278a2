//! Tests of the public calls on squares, rectangles, planes, classes, nodes, regions and paint, and of the count of steps that stands
//! as low: tables worked by hand, and lists of real size, which say that the calls find memory and take little time.
#![tactic(auto)]

#[cfg(test)]
mod areas;
#[cfg(test)]
mod class_tests;
#[cfg(test)]
mod contact_tests;
#[cfg(test)]
mod list_tests;
#[cfg(test)]
mod paint_tests;
#[cfg(test)]
mod place_tests;
#[cfg(test)]
mod plane_tests;
#[cfg(test)]
mod random;
#[cfg(test)]
mod region_tests;
#[cfg(test)]
mod step_tests;
#[cfg(test)]
mod strip_tests;
#[cfg(test)]
mod tile_tests;
