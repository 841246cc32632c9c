//! The program's top call over sources and sinks that fail in mid-stream; nothing else stands here.
#![tactic(auto)]

#[cfg(test)]
mod faults;
