//! The tests of the crates that read layouts and layer maps, unfold calls, make masks of shapes, name nets,
//! list transistors, follow the paths of circuits and sweep defects.
//!
//! Each module tests the crate of its name. A test calls public items alone, on rows whose answers come from outside. The
//! tests stand apart from the crates, since the tests of a crate are checked together with all of its proofs.
#![tactic(auto)]

#[cfg(test)]
mod cif_flatten_tests;
#[cfg(test)]
mod cif_grammar_tests;
#[cfg(test)]
mod cif_reader_tests;
#[cfg(test)]
mod defect_sweep_tests;
#[cfg(test)]
mod device_extract_tests;
#[cfg(test)]
mod fixtures;
#[cfg(test)]
mod layer_map_tests;
#[cfg(test)]
mod layout_extract_tests;
#[cfg(test)]
mod link_classes_tests;
#[cfg(test)]
mod mask_algebra_tests;
#[cfg(test)]
mod mask_region_tests;
#[cfg(test)]
mod plane_geom_tests;
#[cfg(test)]
mod shape_cut_tests;
#[cfg(test)]
mod switch_net_tests;
