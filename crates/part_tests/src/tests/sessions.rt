use game_session::Session;
use level_text::{read_level, read_script};
use std::alloc::Global;

fn session_of(alloc: Global, level: &str, script: &[u8]) -> Option<Session> {
    let script = read_script(alloc, script).ok()?;
    let level = read_level(alloc, level.as_bytes()).ok()?;
    Some(Session::new(level, script))
}

const GAME: &str = "{\"map\":[\"A.0\"],\"agents\":[\"t\"],\"trees\":{\"t\":[\"move\",\"0\"]}}";

// Whether the game whose signal changes in its second frame is this one, and is itself.
fn is_game(alloc: Global, level: &str, script: &[u8]) -> Option<bool> {
    let game = session_of(alloc, GAME, b"2 on a\n");
    let other = session_of(alloc, level, script);
    match (&game, &other) {
        (Some(game), Some(other)) => Some(game.is_same(game) && game.is_same(other)),
        _ => None,
    }
}

// Names of trees, and trees that no agent uses, make no other game.
#[test]
fn sessions_are_the_same_by_their_game(rt: HostRuntime) {
    let cases: [(&str, &[u8], bool); 4] = [
        (
            "{\"map\":[\"A.0\"],\"agents\":[\"u\"],\"trees\":{\"t\":[\"take\"],\"u\":[\"move\",\"0\"]}}",
            b"2 on a",
            true,
        ),
        (
            "{\"map\":[\"A.0.\"],\"agents\":[\"t\"],\"trees\":{\"t\":[\"move\",\"0\"]}}",
            b"2 on a\n",
            false,
        ),
        (
            "{\"map\":[\"A.0\"],\"agents\":[\"t\"],\"trees\":{\"t\":[\"at\",\"0\"]}}",
            b"2 on a\n",
            false,
        ),
        (GAME, b"2 on b\n", false),
    ];
    for (level, script, same) in cases {
        assert!(rt; is_game(rt.alloc(), level, script) == Some(same), "{level}");
    }
}
