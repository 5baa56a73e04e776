mod locking;
mod order;
mod verdicts;
