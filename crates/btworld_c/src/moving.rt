//! That a game may be handed from one thread to another.
use crate::game::Game;

fn moves<T: Send>() {}

/// A game goes from thread to thread: what it shares with its forks never changes, and is counted atomically. So games and
/// forks run side by side, each by one thread at a time. It is said here, where the compiler asks for the proof.
pub fn games_move() {
    moves::<Game>();
}
