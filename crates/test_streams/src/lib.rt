//! Tests of texts and their streams: numbers, lines of a reader, scripts, crews, traces and images.
#![tactic(auto)]

#[cfg(test)]
mod crews;
#[cfg(test)]
mod failing;
#[cfg(test)]
mod full;
#[cfg(test)]
mod gates;
#[cfg(test)]
mod images;
#[cfg(test)]
mod jobs;
#[cfg(test)]
mod peers;
#[cfg(test)]
mod sources;
#[cfg(test)]
mod texts;
#[cfg(test)]
mod traces;
