use std::marker::Model;

/// What the files of a page's level, script and live part hold, and what the level is called.
#[derive(Drop)]
pub struct PageSources<'p> {
    pub name: &'p [u8],
    pub level: &'p [u8],
    pub script: &'p [u8],
    pub live: &'p [u8],
}

impl<'p> Model for PageSources<'p> {
    ghost use Rattle.view_commands.specs.Paging.{PageSources as Texts};

    ghost Value = { Texts };

    ghost view = { λ s. record { name = s.name.now; level = s.level.now; script = s.script.now; live = s.live.now } };
}
