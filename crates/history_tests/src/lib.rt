//! Tests: records, vectors and continuation points in bytes; queries, updates and reads of a history; exchanges between replicas: over
//! lists in memory.
#![tactic(auto)]

#[cfg(test)]
mod admissions;
#[cfg(test)]
mod ahead;
#[cfg(test)]
mod archives;
#[cfg(test)]
mod exchanges;
#[cfg(test)]
mod points;
#[cfg(test)]
mod reads;
#[cfg(test)]
mod updates;
#[cfg(test)]
mod vectors;
#[cfg(test)]
mod written_records;
