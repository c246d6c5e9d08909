//! Rows by application, as the lists of OTP's processes have them: what is new stands in front.

ghost use Rattle.std.specs.Prelude.{◌≡◌, position, OnOk};
ghost use Rattle.rh_otp_model.specs.Rows.{is_of, has_row, keyfind, keydelete, keyreplace, keystore, without_rows, without};

use rh_base::OutOfMemory;
use rh_model::App;

// The place of the first row of an application.
fn place_of<T>(rows: &[(App, T)], app: App) -> Option<usize>
    ensures { result ≡ position (is_of app) rows.now }
{
    rows.iter().position(|row| row.0.0 == app.0)
}

/// The first row of an application, if it has one (lists:keyfind/3).
pub fn key_find<T: Copy>(rows: &[(App, T)], app: App) -> Option<T>
    ensures { result ≡ keyfind app rows.now }
{
    let place = place_of(rows, app)?;
    Some(rows[place].1)
}

/// Without the first row of an application (lists:keydelete/3).
pub fn key_delete<T: Drop>(rows: &mut Vec<(App, T)>, app: App)
    ensures { rows.new.items ≡ keydelete app rows.old.items }
{
    if let Some(place) = place_of(rows.as_slice(), app) {
        let _row = rows.remove(place);
    }
}

/// With this row in place of the application's first one, or in front where it has none (keyreplaceadd/4).
pub fn key_store<T: Drop>(rows: &mut Vec<(App, T)>, app: App, value: T) -> Result<(), OutOfMemory>
    ensures { OnOk result (rows.new.items ≡ keystore app value rows.old.items) }
{
    match place_of(rows.as_slice(), app) {
        Some(place) => {
            rows[place] = (app, value);
            Ok(())
        }
        None => {
            rows.insert(0, (app, value))?;
            Ok(())
        }
    }
}

/// With another value in the application's first row, if it has one (lists:keyreplace/4).
pub fn key_replace<T: Drop>(rows: &mut Vec<(App, T)>, app: App, value: T)
    ensures { rows.new.items ≡ keyreplace app value rows.old.items }
{
    if let Some(place) = place_of(rows.as_slice(), app) {
        rows[place] = (app, value);
    }
}

/// Is there a row of the application (lists:keymember/3)?
pub fn has_row<T: Copy>(rows: &[(App, T)], app: App) -> bool
    ensures { result ≡ has_row app rows.now }
{
    key_find(rows, app).is_some()
}

/// Without all rows of an application.
pub fn drop_rows<T: Drop>(rows: &mut Vec<(App, T)>, app: App)
    ensures { rows.new.items ≡ without_rows app rows.old.items }
{
    rows.retain(|row| row.0.0 != app.0);
}

/// Without an application.
pub fn drop_app(apps: &mut Vec<App>, app: App)
    ensures { apps.new.items ≡ without app apps.old.items }
{
    apps.retain(|other| other.0 != app.0);
}
