//! Tests of decoders, readings, sinks, encoders, findings and whole runs, on the worked examples of this profile.
#![tactic(auto)]

#[cfg(test)]
mod accepted_texts;
#[cfg(test)]
mod answers;
#[cfg(test)]
mod calls_in_turn;
#[cfg(test)]
mod cells;
#[cfg(test)]
mod checks;
#[cfg(test)]
mod cut_texts;
#[cfg(test)]
mod decoders;
#[cfg(test)]
mod devices;
#[cfg(test)]
mod edited_records;
#[cfg(test)]
mod encoders;
#[cfg(test)]
mod endless;
#[cfg(test)]
mod failing_reads;
#[cfg(test)]
mod findings_of_agreements;
#[cfg(test)]
mod findings_of_works;
#[cfg(test)]
mod held;
#[cfg(test)]
mod item_lines;
#[cfg(test)]
mod joins;
#[cfg(test)]
mod library_example;
#[cfg(test)]
mod outputs;
#[cfg(test)]
mod readings;
#[cfg(test)]
mod refused_lines;
#[cfg(test)]
mod refused_texts;
#[cfg(test)]
mod reports;
#[cfg(test)]
mod runs;
#[cfg(test)]
mod sinks;
#[cfg(test)]
mod splits;
#[cfg(test)]
mod whole;
#[cfg(test)]
mod whole_transmissions;
#[cfg(test)]
mod worked_values;
#[cfg(test)]
mod works;
#[cfg(test)]
mod writers;
