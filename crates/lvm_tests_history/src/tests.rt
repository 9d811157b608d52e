mod draws;
mod fixtures;
mod may;
mod posts;
mod turn;
mod vol;
