//! Settings files.

ghost use Rattle.std.specs.Prelude.{◌≡◌, IfErr, IfOk, IfSome, option_and_then, option_map};
ghost use Rattle.toml.specs.Data.{as_integer, get_member};
ghost use Rattle.toml.specs.View.{items_view, table_view, view};
ghost use Rattle.dev_settings.specs.Answers.{Answers, NamesLeastUnknown};
ghost use Rattle.dev_settings.specs.File.{IsLeastUnknown, data_value_of, document_of, first_unknown, is_known};
ghost use Rattle.dev_settings.specs.File.{is_version_one, listed, settings_from, settings_of, unknown_key, wrong_value};
ghost use Rattle.dev_settings.specs.Keys.{keys};
ghost use Rattle.dev_settings.specs.Ranges.{SettingsInRange};
ghost use Rattle.dev_settings.specs.Settings.{standard_settings};
ghost use Rattle.dev_settings.specs.inner.Answers.{IsRefusal, ReadsDocument};
ghost use Rattle.dev_settings.specs.inner.Shown.{shown};
ghost use Rattle.dev_settings.specs.Values.{change_of, integers_of};

use crate::integers::Integers;
use crate::key::{Key, all_keys, key_named};
use crate::settings::{Change, Settings};
use crate::written::{Written, change};
use std::alloc::Global;
use thiserror::Error;
use toml::{Table, Value};

/// Why a settings file is refused, or that memory ran out.
#[derive(Debug, Drop, PartialEq, Eq, Error)]
pub enum SettingsFault {
    /// The bytes are no TOML document.
    #[error("not a TOML document")]
    NotToml,
    /// A key isn't known: the first such key, in the byte order of names.
    #[error("an unknown key: {name}")]
    Key { name: String },
    /// A value has a wrong form or is out of its range: `version`, or the first such key in the order of keys.
    #[error("a wrong value: {name}")]
    Value { name: String },
    /// Memory ran out.
    #[error("out of memory")]
    Memory,
}

impl Settings {
    /// The settings of a file's bytes.
    ///
    /// # Errors
    ///
    /// `NotToml` where the bytes are no TOML document; else `Key` with the least key, in the byte order of names, that
    /// isn't known; else `Value` with `version` where it is there and isn't 1, or with the first key, in the order of
    /// keys, whose value has a wrong form or is out of its range. `Memory` where memory ran out.
    pub fn from_toml(alloc: Global, bytes: &[u8]) -> Result<Settings, SettingsFault>
        ensures answer { Answers (settings_of bytes.now) result }
        ensures least { IfErr result (NamesLeastUnknown (document_of bytes.now)) }
        ensures in_range { IfOk result SettingsInRange }
    {
        let table = match document(alloc, bytes) {
            Ok(table) => table,
            Err(fault) => return Err(fault),
        };
        if let Some(name) = unknown_key(&table) {
            return Err(key_fault(alloc, name));
        }
        if !is_version_one(at(&table, "version")) {
            return Err(value_fault(alloc, "version"));
        }
        match settings(&table) {
            Ok(settings) => Ok(settings),
            Err(key) => Err(value_fault(alloc, key.name())),
        }
    }
}

/// The table that stands in a file's bytes.
fn document(alloc: Global, bytes: &[u8]) -> Result<Table, SettingsFault>
    ensures { ReadsDocument (document_of bytes.now) result }
{
    match toml::table_from_slice(alloc, bytes) {
        Ok(table) => Ok(table),
        Err(error) => {
            if error.is_memory() {
                Err(SettingsFault::Memory)
            } else {
                Err(SettingsFault::NotToml)
            }
        }
    }
}

/// Whether a key is `version` or that of a setting.
fn is_known(name: &str) -> bool
    ensures { result ≡ is_known name.now }
{
    name == "version" || key_named(name.as_bytes()).is_some()
}

/// The first key of a table that isn't known.
fn unknown_key(table: &Table) -> Option<&str>
    ensures first { option_map (λ name. name.now) result ≡ first_unknown (table_view table.now) }
    ensures least { IfSome result (λ name. IsLeastUnknown (table_view table.now) name.now) }
{
    for (name, _) in table {
        if !is_known(name.as_str()) {
            return Some(name.as_str());
        }
    }
    None
}

/// The fault of a key that isn't known.
fn key_fault(alloc: Global, name: &str) -> SettingsFault
    ensures { IsRefusal (unknown_key name.now) result }
{
    match String::from_str(alloc, name) {
        Ok(name) => SettingsFault::Key { name },
        Err(_) => SettingsFault::Memory,
    }
}

/// The fault of a wrong value.
fn value_fault(alloc: Global, name: &str) -> SettingsFault
    ensures { IsRefusal (wrong_value name.now) result }
{
    match String::from_str(alloc, name) {
        Ok(name) => SettingsFault::Value { name },
        Err(_) => SettingsFault::Memory,
    }
}

/// The value of a key.
fn at<'a>(table: &'a Table, name: &str) -> Option<&'a Value>
    ensures { option_map (λ value. view value.now) result ≡ get_member name.now (table_view table.now) }
{
    table.get(name)
}

/// Whether the version is 1, as it is where it is absent.
fn is_version_one(version: Option<&Value>) -> bool
    ensures { result ≡ is_version_one (option_map (λ value. view value.now) version.entry) }
{
    match version {
        Some(value) => value.as_integer() == Some(1),
        None => true,
    }
}

/// The settings of a table, or the first key whose value is wrong.
fn settings(table: &Table) -> Result<Settings, Key>
    ensures { result ≡ settings_from (table_view table.now) keys standard_settings }
{
    let mut settings = Settings::standard();
    for key in all_keys() {
        if let Some(value) = at(table, key.name()) {
            let Some(change) = change_to(key, value) else {
                return Err(key);
            };
            settings.apply(&change);
        }
    }
    Ok(settings)
}

/// The change of a key to the value that stands in a file.
fn change_to(key: Key, value: &Value) -> Option<Change>
    ensures { result ≡ option_and_then (change_of key) (data_value_of (view value.now)) }
{
    let written = written(value)?;
    change(key, &written)
}

/// The value that stands in a file.
fn written(value: &Value) -> Option<Written<'_>>
    ensures { option_map shown result ≡ data_value_of (view value.now) }
{
    if let Some(text) = value.as_str() {
        return Some(Written::Name(text.as_bytes()));
    }
    if let Some(integer) = value.as_integer() {
        return Some(Written::Integer(integer));
    }
    let items = value.as_array()?;
    Some(Written::List(integers(items)?))
}

/// The integers of an array.
fn integers(items: &[Value]) -> Option<Integers>
    ensures { result ≡ integers_of as_integer (listed (items_view items.now)) }
{
    let mut list = Integers::new();
    for item in items {
        if list.is_full() {
            return None;
        }
        let integer = item.as_integer()?;
        list.push(integer);
    }
    Some(list)
}
