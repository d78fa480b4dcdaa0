use anyhow::{Context, Result};
use game_session::Session;
use level_text::{read_level, read_script};
use replay_log::{Frames, Settings, complete, write_log};
use std::alloc::Global;
use std::fs;
use std::rt::Files;

const FRAMES: u32 = 60;

/// The sample levels.
pub const SAMPLES: [Sample; 7] = [
    Sample {
        level: "levels/first.json",
        script: None,
    },
    Sample {
        level: "levels/passing_place.json",
        script: None,
    },
    Sample {
        level: "levels/bucket_chain.json",
        script: None,
    },
    Sample {
        level: "levels/parade.json",
        script: None,
    },
    DOOR,
    Sample {
        level: "levels/fire_drill.json",
        script: Some("levels/fire_drill.script"),
    },
    Sample {
        level: "levels/warehouse.json",
        script: Some("levels/warehouse.script"),
    },
];

/// The level with a door and its script.
pub const DOOR: Sample = Sample {
    level: "levels/door.json",
    script: Some("levels/door.script"),
};

/// The files of a sample level, and of a script where it has one.
#[derive(Clone, Copy, Drop)]
pub struct Sample {
    pub level: &'static str,
    pub script: Option<&'static str>,
}

/// A sample that was played: what its files hold, its game, its frames, and the text of its log.
#[derive(Drop)]
pub struct Played {
    pub path: &'static str,
    pub level: Vec<u8>,
    pub script: Vec<u8>,
    pub session: Session,
    pub frames: Frames,
    pub log: Vec<u8>,
}

impl Sample {
    /// Does its events on the calling thread.
    pub fn play<H: Files + Alloc<A = Global>>(&self, rt: &H, alloc: Global) -> Result<Played> {
        let level = fs::read(rt, self.level)?;
        let script = match self.script {
            Some(path) => fs::read(rt, path)?,
            None => Vec::new(alloc),
        };
        let session = Session::new(
            read_level(alloc, &level).ok().context("no level")?,
            read_script(alloc, &script).ok().context("no script")?,
        );
        let settings = Settings::new(FRAMES, 4, 8, 8, 3)
            .ok()
            .context("no settings")?;
        let (frames, events) = complete(alloc, &session, settings, &[])
            .ok()
            .context("no frames")?;
        let log = write_log(alloc, settings, &events)?;
        Ok(Played {
            path: self.level,
            level,
            script,
            session,
            frames,
            log,
        })
    }
}
