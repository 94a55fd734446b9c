//! Settings whose place stands in the environment.

ghost use Rattle.std.specs.Prelude.{◌≡◌, map};
ghost use Rattle.std.specs.Option.{option_copied};
ghost use Rattle.rank_settings.specs.Places.{AnswersIn, bare_file, IsPlaced};

use crate::refusal::SettingsRefusal;
use crate::settings::Settings;
use crate::words::{USUAL_PATIENCE, settings_of};
use rank_environment::{FoundPlace, RankPlace};
use std::alloc::Global;
use std::convert::AsStr;

/// The script of words that are the program's name and one word more, which is no option.
fn bare_file<'a, S: AsStr>(words: &'a [S]) -> Option<&'a str>
    ensures { option_copied result ≡ bare_file (map S.text words.now) }
{
    if words.len() != 2 {
        return None;
    }
    let file = words[1].as_str();
    if file.as_bytes().first() == Some(&b'-') {
        return None;
    }
    Some(file)
}

/// The settings of this place, with these hosts, and this script; 64 where the port of some rank is above 65,535.
fn settings_at<'a>(
    place: RankPlace,
    hosts: Option<&'a str>,
    file: &'a str,
) -> Result<Settings<'a>, SettingsRefusal>
    ensures { IsPlaced place hosts.entry file.now result }
{
    let port = u32::from(place.base_port) + u32::from(place.rank);
    if place.rank >= place.size || u32::from(place.base_port) + u32::from(place.size) > 65_536 {
        return Err(SettingsRefusal::Words);
    }
    let patience = match place.patience {
        Some(patience) => u64::from(patience),
        None => USUAL_PATIENCE,
    };
    Ok(Settings {
        rank: place.rank,
        size: place.size,
        incarnation: place.incarnation,
        job: place.job,
        port: port as u16,
        patience,
        hosts,
        file,
    })
}

/// The settings that the words give, or, where they are the program's name and a script alone, those of the place that
/// the environment tells. Words without a place, where the environment tells none, are refused as `settings_of` does.
pub fn settings_in<'a, S: AsStr>(
    alloc: Global,
    words: &'a [S],
    found: FoundPlace<'a>,
) -> Result<Settings<'a>, SettingsRefusal>
    ensures { AnswersIn (map S.text words.entry.now) found.entry result }
{
    if let FoundPlace::At(place, hosts) = found {
        if let Some(file) = bare_file(words) {
            return settings_at(place, hosts, file);
        }
    }
    settings_of(alloc, words)
}
