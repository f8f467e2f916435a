//! The built-in headers.
ghost use Rattle.std.specs.Prelude.{◌≡◌};
ghost use Rattle.cr_snapshot.specs.BuiltIns as spec;

/// A header that stands in no file. It is looked for after all directories.
#[derive(Clone, Copy, Debug, PartialEq, Eq)]
pub enum Header {
    Stddef,
    Stdint,
    Stdbool,
    Stdarg,
    Limits,
    Errno,
    String,
    Stdlib,
    Stdio,
    Assert,
}

pub const HEADERS: [Header; 10] = [
    Header::Stddef,
    Header::Stdint,
    Header::Stdbool,
    Header::Stdarg,
    Header::Limits,
    Header::Errno,
    Header::String,
    Header::Stdlib,
    Header::Stdio,
    Header::Assert,
];

impl Header {
    /// Its name, as an include spells it.
    pub fn name(self) -> &'static [u8]
        ensures { result.now ≡ spec.name_of self }
    {
        match self {
            Header::Stddef => b"stddef.h",
            Header::Stdint => b"stdint.h",
            Header::Stdbool => b"stdbool.h",
            Header::Stdarg => b"stdarg.h",
            Header::Limits => b"limits.h",
            Header::Errno => b"errno.h",
            Header::String => b"string.h",
            Header::Stdlib => b"stdlib.h",
            Header::Stdio => b"stdio.h",
            Header::Assert => b"assert.h",
        }
    }

    /// Its bytes.
    pub fn text(self) -> &'static [u8]
        ensures { result.now ≡ spec.text_of self }
    {
        match self {
            Header::Stddef =>
                b"#pragma once\ntypedef long ptrdiff_t;\ntypedef unsigned long size_t;\ntypedef int wchar_t;\n#define NULL ((void*)0)\n#define offsetof(t,m) __builtin_offsetof(t,m)\n",
            Header::Stdint =>
                b"#pragma once\ntypedef signed char int8_t;\ntypedef short int16_t;\ntypedef int int32_t;\ntypedef long int64_t;\ntypedef unsigned char uint8_t;\ntypedef unsigned short uint16_t;\ntypedef unsigned int uint32_t;\ntypedef unsigned long uint64_t;\ntypedef long intptr_t;\ntypedef unsigned long uintptr_t;\n",
            Header::Stdbool =>
                b"#pragma once\n#define bool _Bool\n#define true 1\n#define false 0\n",
            Header::Stdarg =>
                b"#pragma once\ntypedef __builtin_va_list va_list;\n#define va_start(a,n) __builtin_va_start(a,n)\n#define va_arg(a,t) __builtin_va_arg(a,t)\n#define va_end(a) __builtin_va_end(a)\n",
            Header::Limits =>
                b"#pragma once\n#define CHAR_BIT 8\n#define INT_MAX 2147483647\n#define INT_MIN (-INT_MAX-1)\n#define UINT_MAX 4294967295U\n",
            Header::Errno => b"#pragma once\nextern int errno;\n",
            Header::String =>
                b"#pragma once\n#include <stddef.h>\nvoid *memcpy(void*,const void*,size_t);\nvoid *memset(void*,int,size_t);\nint memcmp(const void*,const void*,size_t);\nsize_t strlen(const char*);\nchar *strcpy(char*,const char*);\nint strcmp(const char*,const char*);\nchar *strchr(const char*,int);\n",
            Header::Stdlib =>
                b"#pragma once\n#include <stddef.h>\nvoid *malloc(size_t);\nvoid *calloc(size_t,size_t);\nvoid *realloc(void*,size_t);\nvoid free(void*);\nvoid exit(int);\nvoid abort(void);\nint atoi(const char*);\n",
            Header::Stdio =>
                b"#pragma once\n#include <stddef.h>\ntypedef struct __crename_file FILE;\nextern FILE *stdin,*stdout,*stderr;\nint printf(const char*,...);\nint fprintf(FILE*,const char*,...);\nint snprintf(char*,size_t,const char*,...);\nint puts(const char*);\nFILE *fopen(const char*,const char*);\nint fclose(FILE*);\nint fgetc(FILE*);\n",
            Header::Assert =>
                b"void __crename_fail(void);\n#undef assert\n#ifdef NDEBUG\n#define assert(e) ((void)0)\n#else\n#define assert(e) ((e)?(void)0:__crename_fail())\n#endif\n",
        }
    }
}

// Whether this is the name of a built-in header.
pub fn is_built_in(name: &[u8]) -> bool
    ensures { result ≡ spec.is_built_in name.now }
{
    HEADERS.iter().any(|header| header.name() == name)
}
