// The command that words spell.
ghost use Rattle.std.specs.Prelude.{◌≡◌, ◌<◌, [], ◌∷◌, codes, length, map, option_map, string_bytes, IfSome, Some};
ghost use Rattle.tile_query.specs.declared.question.Question as asked;
ghost use Rattle.top_words.specs.declared.command.Query as queries;
ghost use Rattle.top_words.specs.Questions.{IsAsked, IsProfileOf, IsSightOf, IsSurfaceOf, IsViewOf};
ghost use Rattle.top_words.specs.Words.{IsSpelled, Spells};
ghost use Rattle.top_words.specs.Words as spelled;
ghost use Rattle.top_words.specs.Meant.{meant};

use crate::number::{read_key, read_params, read_tile, read_trial};
use crate::question::{is_apart, read_eye, read_place, read_spot};
use crate::{Command, DatabaseCommand, Edit, Query};
use mesh_query::Spot;
use sight_line::Eye;
use terrain_base::TileId;
use tile_query::{Question, tile_at};

// The command of this word alone.
fn no_argument(word: &str) -> Option<Command<'_>>
    ensures right { IfSome result (λ command. IsSpelled (word.now ∷ []) (meant command)) }
    ensures all { (command : spelled.Command) → IsSpelled (word.now ∷ []) command
        → option_map meant result ≡ Some command }
{
    if word == "list" {
        return Some(Command::Database(DatabaseCommand::Ask(Query::List)));
    }
    if word == "rebuild" {
        return Some(Command::Database(DatabaseCommand::Rebuild));
    }
    if word == "check" {
        return Some(Command::Database(DatabaseCommand::Check));
    }
    if word == "migrate" {
        return Some(Command::Migrate);
    }
    None
}

// The command of this word and the name of a file, which is not empty.
fn with_file<'a>(word: &str, file: &'a str) -> Option<Command<'a>>
    ensures right { IfSome result (λ command. IsSpelled (word.now ∷ file.now ∷ []) (meant command)) }
    ensures all { (command : spelled.Command) → IsSpelled (word.now ∷ file.now ∷ []) command
        → option_map meant result ≡ Some command }
{
    if file.is_empty() {
        return None;
    }
    if word == "add" {
        return Some(Command::Database(DatabaseCommand::Change(Edit::Add { file })));
    }
    if word == "replace" {
        return Some(Command::Database(DatabaseCommand::Change(Edit::Replace { file })));
    }
    if word == "apply" {
        return Some(Command::Database(DatabaseCommand::Apply { script: file }));
    }
    if word == "cell" {
        return Some(Command::Cell { file });
    }
    if word == "audit" {
        return Some(Command::Audit { file });
    }
    if word == "convert" {
        return Some(Command::Convert { file });
    }
    None
}

// The command of this word and two arguments.
fn with_two<'a>(word: &str, first: &str, second: &str) -> Option<Command<'a>>
    ensures right { IfSome result (λ command. IsSpelled (word.now ∷ first.now ∷ second.now ∷ []) (meant command)) }
    ensures all { (command : spelled.Command) → IsSpelled (word.now ∷ first.now ∷ second.now ∷ []) command
        → option_map meant result ≡ Some command }
{
    if word == "init" {
        let params = read_params(first, second)?;
        return Some(Command::Init { params });
    }
    if word == "remove" {
        let key = read_key(first, second)?;
        return Some(Command::Database(DatabaseCommand::Change(Edit::Remove { key })));
    }
    if word == "trial" {
        let (count, number) = read_trial(first, second)?;
        return Some(Command::Trial { count, number });
    }
    None
}

// The question for a height at a place, by the tile of a level.
fn height_query(level: &str, east: &str, north: &str) -> Option<Query>
    ensures right { IfSome result (λ query. IsAsked (codes "height" ∷ level.now ∷ east.now ∷ north.now ∷ []) query) }
    ensures all { (query : queries.Query) → IsAsked (codes "height" ∷ level.now ∷ east.now ∷ north.now ∷ []) query
        → result ≡ Some query }
{
    let place = read_place(level, east, north)?;
    let tile = tile_at(place.level, place.east, place.north);
    Some(Query::Surface {
        tile,
        question: Question::Height {
            east: place.east,
            north: place.north,
        },
    })
}

// The command of this word and a tile.
fn with_tile<'a>(word: &str, z: &str, x: &str, y: &str) -> Option<Command<'a>>
    ensures right { IfSome result (λ command. IsSpelled (word.now ∷ z.now ∷ x.now ∷ y.now ∷ []) (meant command)) }
    ensures all { (command : spelled.Command) → IsSpelled (word.now ∷ z.now ∷ x.now ∷ y.now ∷ []) command
        → option_map meant result ≡ Some command }
{
    if word == "inspect" {
        let tile = read_tile(z, x, y)?;
        return Some(Command::Database(DatabaseCommand::Ask(Query::Inspect { tile })));
    }
    if word == "deps" {
        let tile = read_tile(z, x, y)?;
        return Some(Command::Database(DatabaseCommand::Ask(Query::Deps { tile })));
    }
    if word == "heightmap" {
        let tile = read_tile(z, x, y)?;
        return Some(Command::Database(DatabaseCommand::Ask(Query::Heightmap { tile })));
    }
    if word == "height" {
        let query = height_query(z, x, y)?;
        return Some(Command::Database(DatabaseCommand::Ask(query)));
    }
    None
}

// What is asked with this word, and an eye where the words behind it are one.
fn with_eye(word: &str, eye: Option<Eye>) -> Option<Question>
    ensures right { IfSome result (IsViewOf word.now eye) }
    ensures all { (wanted : asked.Question) → IsViewOf word.now eye wanted → result ≡ Some wanted }
{
    let eye = eye?;
    if word == "view" {
        return Some(Question::View { eye });
    }
    None
}

// What is asked with this word and two spots, which differ.
fn with_spots(word: &str, from: Option<Spot>, to: Option<Spot>) -> Option<Question>
    ensures right { IfSome result (IsProfileOf word.now from to) }
    ensures all { (wanted : asked.Question) → IsProfileOf word.now from to wanted → result ≡ Some wanted }
{
    let from = from?;
    let to = to?;
    if word == "profile" && is_apart(from, to) {
        return Some(Question::Profile { from, to });
    }
    None
}

// What is asked with this word and two eyes, whose spots differ.
fn with_eyes(word: &str, from: Option<Eye>, to: Option<Eye>) -> Option<Question>
    ensures right { IfSome result (IsSightOf word.now from to) }
    ensures all { (wanted : asked.Question) → IsSightOf word.now from to wanted → result ≡ Some wanted }
{
    let from = from?;
    let to = to?;
    if word == "sight" && is_apart(from.spot, to.spot) {
        return Some(Question::Sight { from, to });
    }
    None
}

// The command that asks this of a stored tile.
fn of_surface<'a>(tile: Option<TileId>, question: Option<Question>) -> Option<Command<'a>>
    ensures right { IfSome result (λ command. IsSurfaceOf tile question (meant command)) }
    ensures all { (wanted : spelled.Command) → IsSurfaceOf tile question wanted
        → option_map meant result ≡ Some wanted }
{
    let tile = tile?;
    let question = question?;
    Some(Command::Database(DatabaseCommand::Ask(Query::Surface { tile, question })))
}

// The command of seven words: a question of what an eye sees.
fn view_command(words: &[String]) -> Option<Command<'_>>
    ensures right { IfSome result (λ command. IsSpelled (map string_bytes words.now) (meant command)) }
    ensures all { length words.now ≡ 7 → (command : spelled.Command) → IsSpelled (map string_bytes words.now) command
        → option_map meant result ≡ Some command }
{
    match words {
        [word, z, x, y, u, v, metres] => {
            let question = with_eye(word, read_eye(u, v, metres));
            of_surface(read_tile(z, x, y), question)
        }
        _ => None,
    }
}

// The command of eight words: a question for a profile.
fn profile_command(words: &[String]) -> Option<Command<'_>>
    ensures right { IfSome result (λ command. IsSpelled (map string_bytes words.now) (meant command)) }
    ensures all { length words.now ≡ 8 → (command : spelled.Command) → IsSpelled (map string_bytes words.now) command
        → option_map meant result ≡ Some command }
{
    match words {
        [word, z, x, y, u, v, to_u, to_v] => {
            let question = with_spots(word, read_spot(u, v), read_spot(to_u, to_v));
            of_surface(read_tile(z, x, y), question)
        }
        _ => None,
    }
}

// The command of ten words: a question of sight between two eyes.
fn sight_command(words: &[String]) -> Option<Command<'_>>
    ensures right { IfSome result (λ command. IsSpelled (map string_bytes words.now) (meant command)) }
    ensures all { length words.now ≡ 10 → (command : spelled.Command) → IsSpelled (map string_bytes words.now) command
        → option_map meant result ≡ Some command }
{
    match words {
        [word, z, x, y, u, v, metres, to_u, to_v, to_metres] => {
            let from = read_eye(u, v, metres);
            let question = with_eyes(word, from, read_eye(to_u, to_v, to_metres));
            of_surface(read_tile(z, x, y), question)
        }
        _ => None,
    }
}

// The command of more than four words: a question about the surface of a stored tile.
fn surface_command(words: &[String]) -> Option<Command<'_>>
    ensures right { IfSome result (λ command. IsSpelled (map string_bytes words.now) (meant command)) }
    ensures all { 4 < length words.now → (command : spelled.Command) → IsSpelled (map string_bytes words.now) command
        → option_map meant result ≡ Some command }
{
    let count = words.len();
    if count == 7 {
        return view_command(words);
    }
    if count == 8 {
        return profile_command(words);
    }
    if count == 10 {
        return sight_command(words);
    }
    None
}

// The command of the words behind the folder.
fn command_of(words: &[String]) -> Option<Command<'_>>
    ensures right { IfSome result (λ command. IsSpelled (map string_bytes words.now) (meant command)) }
    ensures all { (command : spelled.Command) → IsSpelled (map string_bytes words.now) command
        → option_map meant result ≡ Some command }
{
    if words.len() > 4 {
        return surface_command(words);
    }
    match words {
        [word] => no_argument(word),
        [word, file] => with_file(word, file),
        [word, first, second] => with_two(word, first, second),
        [word, z, x, y] => with_tile(word, z, x, y),
        _ => None,
    }
}

/// The command that the words spell: the database's folder, the command's word, and exactly its arguments. `None`
/// exactly where they spell none.
pub fn command_in(words: &[String]) -> Option<Command<'_>>
    ensures right { IfSome result (λ command. Spells (map string_bytes words.now) (meant command)) }
    ensures all { (command : spelled.Command) → Spells (map string_bytes words.now) command
        → option_map meant result ≡ Some command }
{
    match words {
        [_, behind @ ..] => command_of(behind),
        [] => None,
    }
}
