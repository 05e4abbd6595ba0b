//! Tests: moments, status codes, values, arrays, node ids, rows of CSV and printed histories as text, in rows.
#![tactic(auto)]

#[cfg(test)]
mod arrays;
#[cfg(test)]
mod csv_rows;
#[cfg(test)]
mod long_values;
#[cfg(test)]
mod moments;
#[cfg(test)]
mod node_ids;
#[cfg(test)]
mod reports;
#[cfg(test)]
mod trends;
#[cfg(test)]
mod values;
