// The text of layer.json.
ghost use Rattle.std.specs.Prelude.{◌≡◌, ◌≤◌, ◌+◌, map, IfOk, OnOk};
ghost use Rattle.std.specs.List.{range_with_len};
ghost use Rattle.serde_json.specs.Data.{array, string, put};
ghost use Rattle.serde_json.specs.View.{view, items_of, members_view};
ghost use Rattle.availability.specs.Runs.{runs_of};
ghost use Rattle.availability.specs.Layer.{deepest_of, layer_text_of};
ghost use Rattle.availability.specs.LayerData.{run_data, level_data, layer_data, bounds_data, tiles_data, levels_data};

use crate::{RowRun, runs};
use serde_json::{Map, Value, json};
use std::alloc::{AllocError, Global};
use terrain_base::{NoMemory, Summary, depth};

// The deepest level with an existing tile.
fn deepest_level(summaries: &[Summary], cap: u8) -> u8
    ensures value { result ≡ deepest_of cap summaries.now }
    ensures within { result ≤ 14 }
{
    let mut deepest: u8 = 0;
    for cell in summaries {
        deepest = deepest.max(depth(cell.level, cap));
    }
    deepest
}

// A run as an object.
fn run_value(alloc: Global, run: RowRun) -> Result<Value, AllocError>
    ensures { IfOk result (λ value. view value ≡ run_data run) }
{
    json!(in alloc; {"endX": run.end, "endY": run.row, "startX": run.start, "startY": run.row})
}

// The runs of a level as an array.
fn level_value(alloc: Global, list: &[RowRun]) -> Result<Value, AllocError>
    ensures { IfOk result (λ value. view value ≡ level_data list.now) }
{
    let mut values = Vec::new(alloc);
    for run in list {
        let value = run_value(alloc, *run)?;
        values.push(value)?;
    }
    Ok(Value::Array(values))
}

// The levels from 0 to the deepest as an array.
fn levels_value(
    alloc: Global,
    summaries: &[Summary],
    cap: u8,
    deepest: u8,
) -> Result<Value, NoMemory>
    requires { deepest ≤ 14 }
    ensures { IfOk result (λ value. view value
        ≡ levels_data (map (runs_of cap summaries.now) (range_with_len 0 (deepest + 1)))) }
{
    let mut values = Vec::new(alloc);
    for z in 0..deepest + 1 {
        let list = runs(alloc, summaries, cap, z)?;
        let value = level_value(alloc, &list)?;
        values.push(value)?;
    }
    Ok(Value::Array(values))
}

// Puts a text under a key.
fn put_text(
    object: &mut Map<String, Value>,
    alloc: Global,
    key: &str,
    text: &str,
) -> Result<(), AllocError>
    ensures { OnOk result (members_view object.new.entries
        ≡ put key.now (string text.now) (members_view object.old.entries)) }
{
    let text = String::from_str(alloc, text)?;
    serde_json::put(object, alloc, key, Value::String(text))
}

// The whole Earth in degrees.
fn bounds_value(alloc: Global) -> Result<Value, AllocError>
    ensures { IfOk result (λ value. view value ≡ bounds_data) }
{
    json!(in alloc; [-180i32, -90i32, 180i32, 90i32])
}

// Where a tile is found.
fn tiles_value(alloc: Global) -> Result<Value, AllocError>
    ensures { IfOk result (λ value. view value ≡ tiles_data) }
{
    json!(in alloc; ["{z}/{x}/{y}.terrain"])
}

// The whole layer, of its levels and the deepest one.
fn layer_value(alloc: Global, available: Value, deepest: u8) -> Result<Value, AllocError>
    ensures { IfOk result (λ value. view value ≡ layer_data (view available) deepest) }
{
    let bounds = bounds_value(alloc)?;
    let tiles = tiles_value(alloc)?;
    let mut object = Map::new(alloc);
    serde_json::put(&mut object, alloc, "available", available)?;
    serde_json::put(&mut object, alloc, "bounds", bounds)?;
    put_text(&mut object, alloc, "format", "quantized-mesh-1.0")?;
    serde_json::put(&mut object, alloc, "maxzoom", Value::from(deepest))?;
    serde_json::put(&mut object, alloc, "minzoom", Value::from(0u8))?;
    put_text(&mut object, alloc, "projection", "EPSG:4326")?;
    put_text(&mut object, alloc, "scheme", "tms")?;
    put_text(&mut object, alloc, "tilejson", "2.1.0")?;
    serde_json::put(&mut object, alloc, "tiles", tiles)?;
    put_text(&mut object, alloc, "version", "1.0.0")?;
    Ok(Value::Object(object))
}

/// The text of layer.json for the existing tiles of these cells: compact JSON of TileJSON 2.1.0 with the keys
/// ascending, in which `available` lists the maximal runs of each level from 0 to `maxzoom`, the deepest level
/// with an existing tile.
pub fn layer_text(alloc: Global, summaries: &[Summary], cap: u8) -> Result<Vec<u8>, NoMemory>
    ensures { IfOk result (λ text. text.items ≡ layer_text_of cap summaries.now) }
{
    let deepest = deepest_level(summaries, cap);
    let available = levels_value(alloc, summaries, cap, deepest)?;
    let value = layer_value(alloc, available, deepest)?;
    let text = value.to_string(alloc)?;
    Ok(text.into_bytes())
}
