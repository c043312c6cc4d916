//! Frames, rows and sums; nodes and sinks that are fed by hand, with no runner: what they give, and what comes of it; and
//! blocks that go over links, code by code.
mod blind;
mod carrying;
mod codes;
mod counts;
mod fabrics;
mod failed_links;
mod faults;
mod frames;
mod gates;
mod hands;
mod heads;
mod links;
mod many_links;
mod orders;
mod received;
mod repeats;
mod rows;
mod runs;
mod streams;
mod sums;
mod told;
mod traffic;
mod turning;
mod windows;
