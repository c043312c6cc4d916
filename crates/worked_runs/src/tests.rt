//! The top call over objects in memory, over gates that tell which jobs enter, and over systems of which a call fails.
mod calls;
mod coefficients;
mod gates;
mod model;
mod numbers;
mod routes;
mod schedules;
mod systems;
