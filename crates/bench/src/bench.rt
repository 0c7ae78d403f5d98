// What a bench keeps.
use delay::bus::Bus;
use delay::entry::Row;
use fields::refusal::MakingFault;
use plan::plan::Plan;
use slots::position::Position;

// The bus, rows and book of a plan, and a send buffer, at some position.
#[derive(Drop)]
pub struct Bench<B, S> {
    pub(crate) bus: Bus,
    // by frame, then by priority
    pub(crate) rows: Vec<Row>,
    // by frame: the last minislot in which it may start
    pub(crate) starts: Vec<u16>,
    // by message: the minislots that it takes
    pub(crate) sizes: Vec<u16>,
    pub(crate) book: B,
    pub(crate) buffer: S,
    pub(crate) position: Position,
    // the time of the last accepted release
    pub(crate) released: Option<u64>,
    // the start of the last slot run
    pub(crate) started: Option<u64>,
}

// A plan and a buffer that made no bench, with the reason.
#[derive(Drop)]
pub struct BenchRefused<B, S> {
    pub plan: Plan<B>,
    pub buffer: S,
    pub fault: MakingFault,
}
