//! The bytes of images, what they are read as, and what they mean.

ghost use Rattle.std.specs.Prelude.{◌≡◌, ◌∷◌, ◌++◌, [], Some, None, Ok, Err, codes};
ghost use Rattle.apex_types.specs.Costs.{written_costs};
ghost use Rattle.apex_types.specs.declared.version.ImageVersion.TheVariants.{Third};
ghost use Rattle.apex_types.specs.declared.codes.ModuleAction.TheVariants as of_module;
ghost use Rattle.machine_meaning.specs.ImageReading.{Truncated, Trailing, image_at};
ghost use Rattle.meaning_rows.specs.Rows.{image_of_sources, lines, plain_partition, recursive_image, release_window, reporting_image, single_table, smallest_image, text_of_image};

/// A source becomes an image, byte by byte.
fn sources_are_built()
    ensures smallest { image_of_sources (single_table (codes "a") 128) (codes "init stack 16 { local r; SET_PARTITION_MODE(3) -> r; }" ∷ []) ≡ Some smallest_image }
    ensures reporting { image_of_sources (single_table (codes "a") 128) (codes "array m[2]; init stack 16 { local r; local i; CREATE_PROCESS(p) -> r, i; START(i) -> r; SET_PARTITION_MODE(3) -> r; } process p priority 5 period -1 capacity -1 stack 16 { local r; local t; work 3; GET_TIME() -> r, t; m[0] := t; m[1] := 7; REPORT_APPLICATION_MESSAGE(m, 2) -> r; }" ∷ []) ≡ Some reporting_image }
    ensures recursive { image_of_sources (single_table (codes "a") 128) (codes "proc f(n) { return f(n + 1); } init stack 16 { local r; local i; CREATE_PROCESS(p) -> r, i; START(i) -> r; SET_PARTITION_MODE(3) -> r; } process p priority 5 period -1 capacity -1 stack 17 { local x; x := f(0); }" ∷ []) ≡ Some recursive_image }
{}

/// The smallest image's fields.
fn an_image_is_read()
    ensures { image_at smallest_image ≡ Ok (record {
      schedule = record { frame = 128; windows = release_window 1 0 128 ∷ [] };
      fault = of_module.Ignore;
      version = Third written_costs;
      items = record {
        partition = plain_partition (codes "a") 128 128;
        section = record {
          initial = [];
          semaphores = [];
          events = 0;
          buffers = [];
          blackboards = [];
          routines = [];
          processes = [];
          init = record { stack = 16; entry = 0; slots = 1; frame = 4 };
          handler = None;
          code =
              (1 ∷ 0 ∷ 0 ∷ 0 ∷ 0 ∷ 0 ∷ 0 ∷ 0 ∷ 3 ∷ 0 ∷ 0 ∷ 0 ∷ 0 ∷ 0 ∷ 0 ∷ 0 ∷ [])
              ∷ (28 ∷ 0 ∷ 0 ∷ 0 ∷ 2 ∷ 0 ∷ 0 ∷ 0 ∷ 0 ∷ 0 ∷ 0 ∷ 0 ∷ 0 ∷ 0 ∷ 0 ∷ 0 ∷ [])
              ∷ (5 ∷ 0 ∷ 0 ∷ 0 ∷ 0 ∷ 0 ∷ 0 ∷ 0 ∷ 0 ∷ 0 ∷ 0 ∷ 0 ∷ 0 ∷ 0 ∷ 0 ∷ 0 ∷ [])
              ∷ (29 ∷ 0 ∷ 0 ∷ 0 ∷ 0 ∷ 0 ∷ 0 ∷ 0 ∷ 0 ∷ 0 ∷ 0 ∷ 0 ∷ 0 ∷ 0 ∷ 0 ∷ 0 ∷ [])
              ∷ [];
        };
      } ∷ [];
      channels = [];
    }) }
{}

/// An image means what its source means.
fn images_run()
    ensures smallest { text_of_image smallest_image 128 ≡ Some (lines (
        codes "0000000000000 a MODE COLD_START" ∷
        codes "0000000000000 a STATE INIT READY" ∷
        codes "0000000000000 a STATE INIT RUNNING" ∷
        codes "0000000000004 a RET INIT SET_PARTITION_MODE 0" ∷
        codes "0000000000004 a STATE INIT DORMANT" ∷
        codes "0000000000004 a MODE NORMAL" ∷
        [])) }
    ensures reporting { text_of_image reporting_image 128 ≡ Some (lines (
        codes "0000000000000 a MODE COLD_START" ∷
        codes "0000000000000 a STATE INIT READY" ∷
        codes "0000000000000 a STATE INIT RUNNING" ∷
        codes "0000000000008 a RET INIT CREATE_PROCESS 0" ∷
        codes "0000000000015 a RET INIT START 0" ∷
        codes "0000000000015 a STATE p WAITING" ∷
        codes "0000000000021 a RET INIT SET_PARTITION_MODE 0" ∷
        codes "0000000000021 a STATE INIT DORMANT" ∷
        codes "0000000000021 a MODE NORMAL" ∷
        codes "0000000000021 a STATE p READY" ∷
        codes "0000000000022 a STATE p RUNNING" ∷
        codes "0000000000028 a RET p GET_TIME 0" ∷
        codes "0000000000047 a RET p REPORT_APPLICATION_MESSAGE 0" ∷
        codes "0000000000047 a REPORT p 28 7" ∷
        codes "0000000000052 a STATE p DORMANT" ∷
        [])) }
    ensures recursive { text_of_image recursive_image 128 ≡ Some (lines (
        codes "0000000000000 a MODE COLD_START" ∷
        codes "0000000000000 a STATE INIT READY" ∷
        codes "0000000000000 a STATE INIT RUNNING" ∷
        codes "0000000000008 a RET INIT CREATE_PROCESS 0" ∷
        codes "0000000000015 a RET INIT START 0" ∷
        codes "0000000000015 a STATE p WAITING" ∷
        codes "0000000000021 a RET INIT SET_PARTITION_MODE 0" ∷
        codes "0000000000021 a STATE INIT DORMANT" ∷
        codes "0000000000021 a MODE NORMAL" ∷
        codes "0000000000021 a STATE p READY" ∷
        codes "0000000000022 a STATE p RUNNING" ∷
        codes "0000000000049 a STATE p DORMANT" ∷
        codes "0000000000049 a HM STACK_OVERFLOW p PARTITION IGNORE" ∷
        [])) }
{}
