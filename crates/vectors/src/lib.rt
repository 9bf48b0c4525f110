// Many cases as tests. Expected values come from the documents or from plain tables, never from the program.
#![tactic(auto)]

#[cfg(test)]
mod closing;
#[cfg(test)]
mod diagrams;
#[cfg(test)]
mod reading;
#[cfg(test)]
mod shelves;
#[cfg(test)]
mod sources;
