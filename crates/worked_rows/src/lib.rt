//! Worked runs of a kernel. They stand apart from it, so that its own check need not wait for them.
#![tactic(auto)]

#[cfg(test)]
mod beside_links;
#[cfg(test)]
mod beside_offsets;
#[cfg(test)]
mod beside_rights;
#[cfg(test)]
mod beside_truncates;
#[cfg(test)]
mod bytes_at_offsets;
#[cfg(test)]
mod bytes_of_truncates;
#[cfg(test)]
mod capacity;
#[cfg(test)]
mod changed;
#[cfg(test)]
mod errors_at_links;
#[cfg(test)]
mod errors_at_offsets;
#[cfg(test)]
mod errors_of_links;
#[cfg(test)]
mod errors_of_rights;
#[cfg(test)]
mod errors_of_truncates;
#[cfg(test)]
mod exchanges;
#[cfg(test)]
mod fifos;
#[cfg(test)]
mod files;
#[cfg(test)]
mod forgotten;
#[cfg(test)]
mod freed;
#[cfg(test)]
mod freeing;
#[cfg(test)]
mod given_up;
#[cfg(test)]
mod growths;
#[cfg(test)]
mod kept_rights;
#[cfg(test)]
mod large_tests;
#[cfg(test)]
mod largest_files;
#[cfg(test)]
mod limited_appends;
#[cfg(test)]
mod limited_offsets;
#[cfg(test)]
mod limited_truncates;
#[cfg(test)]
mod limited_writes;
#[cfg(test)]
mod limits;
#[cfg(test)]
mod links;
#[cfg(test)]
mod long_paths;
#[cfg(test)]
mod many_descriptors;
#[cfg(test)]
mod modes;
#[cfg(test)]
mod moved;
#[cfg(test)]
mod names_of_truncates;
#[cfg(test)]
mod open_descriptors;
#[cfg(test)]
mod openings;
#[cfg(test)]
mod paths;
#[cfg(test)]
mod pipes;
#[cfg(test)]
mod processes;
#[cfg(test)]
mod ranges;
#[cfg(test)]
mod refused;
#[cfg(test)]
mod refused_files;
#[cfg(test)]
mod refused_names;
#[cfg(test)]
mod refused_offsets;
#[cfg(test)]
mod refused_pipes;
#[cfg(test)]
mod renamed_files;
#[cfg(test)]
mod renames;
#[cfg(test)]
mod rights;
#[cfg(test)]
mod row;
#[cfg(test)]
mod rows;
#[cfg(test)]
mod shared;
#[cfg(test)]
mod shown;
#[cfg(test)]
mod symbolic_links;
#[cfg(test)]
mod targets;
#[cfg(test)]
mod tests;
#[cfg(test)]
mod transactions;
#[cfg(test)]
mod trees;
#[cfg(test)]
mod views;
