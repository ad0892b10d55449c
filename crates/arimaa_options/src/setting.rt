//! What an option sets.
ghost use Rattle.std.specs.Prelude.{◌≡◌, ◌^◌, ◌↔◌, Some};
ghost use Rattle.arimaa_options.specs.declared.setting.Setting.{Setting as Name};
ghost use Rattle.arimaa_options.specs.Options.{least_of, most_of, word_of};

// What an option sets.
#[derive(Clone, Copy, Debug, PartialEq, Eq)]
pub(crate) enum Setting {
    Depth,
    Workers,
    Lines,
    Budget,
    Room,
}

impl Setting {
    // What the option of this name sets.
    pub(crate) fn named(name: &str) -> Option<Setting>
        ensures { (o : Name) → (result ≡ Some o) ↔ (name.now ≡ word_of o) }
    {
        match name.as_bytes() {
            b"--depth" => Some(Setting::Depth),
            b"--workers" => Some(Setting::Workers),
            b"--lines" => Some(Setting::Lines),
            b"--budget" => Some(Setting::Budget),
            b"--room" => Some(Setting::Room),
            _ => None,
        }
    }

    // The least number that it may be set to.
    pub(crate) fn least(self) -> u64
        ensures { result ≡ least_of self }
    {
        match self {
            Setting::Depth => 0,
            _ => 1,
        }
    }

    // The greatest number that it may be set to.
    pub(crate) fn most(self) -> u64
        ensures { result ≡ most_of self }
    {
        match self {
            Setting::Depth => 20,
            Setting::Workers => 16,
            Setting::Lines => 262_144,
            Setting::Budget => 1 << 40,
            Setting::Room => 1_048_576,
        }
    }
}
