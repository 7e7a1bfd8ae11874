//! Tests of functions below the one call of the tool, which is tested by the table of the crate `rows`.
#![tactic(auto)]

#[cfg(test)]
mod codes;
#[cfg(test)]
mod flow;
#[cfg(test)]
mod forms;
#[cfg(test)]
mod linear_atoms;
#[cfg(test)]
mod linear_table;
#[cfg(test)]
mod map_texts;
#[cfg(test)]
mod memory_cells;
#[cfg(test)]
mod open_branches;
#[cfg(test)]
mod plain_values;
#[cfg(test)]
mod pointer_classes;
#[cfg(test)]
mod report_parts;
#[cfg(test)]
mod slices;
#[cfg(test)]
mod tests_files;
#[cfg(test)]
mod tokens;
#[cfg(test)]
mod turning;
#[cfg(test)]
mod turns;
#[cfg(test)]
mod words;
